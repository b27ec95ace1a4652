//! The words of the command line.
ghost use Rattle.std.specs.Prelude.{◌≡◌, map};
ghost use Rattle.std.specs.Option.{option_map};
ghost use Rattle.cf_run.specs.Commands.{named, file_of};

// A word that names a file.
fn named<'a>(word: &'a str) -> Option<&'a str>
    ensures { option_map (λ w. w.now) result ≡ named word.now }
{
    if word.is_empty() || word.as_bytes()[0] == b'-' {
        None
    } else {
        Some(word)
    }
}

/// The file that the words `run FILE` or `run --serial FILE` name.
pub fn file_of<'a>(words: &[&'a str]) -> Option<&'a str>
    ensures { option_map (λ w. w.now) result ≡ file_of (map (λ w. w.now) words.now) }
{
    if words.len() == 2 && words[0] == "run" {
        named(words[1])
    } else if words.len() == 3 && words[0] == "run" && words[1] == "--serial" {
        named(words[2])
    } else {
        None
    }
}
