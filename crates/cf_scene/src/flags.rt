//! What a run keeps of each thread beside where it stands.
ghost use Rattle.std.specs.Prelude.{◌≡◌, false};
ghost use Rattle.cf_model.specs.Deals.{wake_flags};
ghost use Rattle.cf_model.specs.State.{flags_of as fresh_flags};
ghost use Rattle.cf_model.specs.Journals.{is_asleep, tick_flags};
ghost use Rattle.cf_scene.specs.Scenes.{flags_of, sleeping_of};

/// Whether a thread's run loop sleeps.
#[derive(Clone, Copy)]
pub enum Sleep {
    /// It is awake.
    Awake,
    /// Until a date, in ticks, if it has one.
    Until(Option<u64>),
}

/// Whether a thread is started, whether its loop sleeps, and whether a wake is kept for its next sleep.
#[derive(Clone, Copy)]
pub struct Flags {
    /// Setup has started it.
    pub is_started: bool,
    /// Whether its loop sleeps.
    pub sleep: Sleep,
    /// A wake is kept for its next sleep.
    pub is_woken: bool,
}

impl Flags {
    /// Those of a thread that is started or not, and is awake.
    pub fn new(is_started: bool) -> Flags
        ensures { flags_of result ≡ fresh_flags is_started }
    {
        Flags {
            is_started,
            sleep: Sleep::Awake,
            is_woken: false,
        }
    }

    /// Whether the loop sleeps.
    pub fn is_asleep(&self) -> bool
        ensures { result ≡ is_asleep (flags_of self.now).sleep }
    {
        matches!(self.sleep, Sleep::Until(_))
    }

    /// The flags after a tick to a time: a sleep is over if its date is at most that.
    pub fn after_tick(&self, time: u64) -> Flags
        ensures { flags_of result ≡ tick_flags time (flags_of self.now) }
    {
        let sleep = match self.sleep {
            Sleep::Until(Some(date)) if date <= time => Sleep::Awake,
            sleep => sleep,
        };
        Flags {
            is_started: self.is_started,
            sleep,
            is_woken: self.is_woken,
        }
    }

    /// The flags after a wake: a sleep is over, or the wake is kept for the next one.
    pub fn woken(&self) -> Flags
        ensures { flags_of result ≡ wake_flags (flags_of self.now) }
    {
        match self.sleep {
            Sleep::Awake => Flags {
                is_started: self.is_started,
                sleep: Sleep::Awake,
                is_woken: true,
            },
            Sleep::Until(_) => self.slept(Sleep::Awake, self.is_woken),
        }
    }

    /// The flags with another sleep, and with a wake that is kept or not.
    fn slept(&self, sleep: Sleep, is_woken: bool) -> Flags
        ensures { flags_of result
            ≡ record { is_started = self.now.is_started; sleep = sleeping_of sleep; is_woken = is_woken } }
    {
        Flags {
            is_started: self.is_started,
            sleep,
            is_woken,
        }
    }

    /// The flags once the kept wake is taken, with another sleep.
    pub(crate) fn sleeping(&self, sleep: Sleep) -> Flags
        ensures { flags_of result
            ≡ record { is_started = self.now.is_started; sleep = sleeping_of sleep; is_woken = false } }
    {
        self.slept(sleep, false)
    }
}
