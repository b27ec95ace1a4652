//! Lists of numbers. Each number is in one list or in none, and a list has its numbers in rising order.
ghost use Rattle.std.specs.Prelude.{◌≡◌, ◌+◌, ◌-◌, ◌<◌, ◌≤◌, ◌++◌, ◌∷◌, [], ℕ, length, slice_set, Some, None, OnOk, OnErr, IsOk, IsSome, slice_index_or, vec_len, vec_capacity, ◌^◌, ◌==◌, if◌then◌else◌};
ghost use Rattle.std.specs.Option.{ForSome};
ghost use Rattle.cf_notify.specs.Links.{is_in, IsNext, no_ends, link_at, ends_at, next_links, next_ends, prev_links, prev_ends};

use crate::NoMemory;
use std::alloc::Global;
use std::marker::Model;

// The list that a number is in, and its neighbours there.
#[derive(Clone, Copy)]
pub struct Link {
    pub list: Option<u32>,
    pub prev: Option<u32>,
    pub next: Option<u32>,
}

// The first and the last number of a list.
#[derive(Clone, Copy)]
pub struct Ends {
    pub first: Option<u32>,
    pub last: Option<u32>,
}

const NO_ENDS: Ends = Ends {
    first: None,
    last: None,
};

const NO_LINK: Link = Link {
    list: None,
    prev: None,
    next: None,
};

// The first number of a list, of these ends.
fn first_of(ends: &[Ends], list: u32) -> Option<u32>
    ensures { result ≡ (ends_at ends.now list).first }
{
    match ends.get(list as usize) {
        Some(ends) => ends.first,
        None => None,
    }
}

// The last number of a list, of these ends.
fn last_of(ends: &[Ends], list: u32) -> Option<u32>
    ensures { result ≡ (ends_at ends.now list).last }
{
    match ends.get(list as usize) {
        Some(ends) => ends.last,
        None => None,
    }
}

// The number that comes next.
fn next_number(links: &[Link]) -> u32
    requires { length links.now < 2 ^ 32 }
    ensures { result ≡ length links.now }
{
    links.len() as u32
}

// The link of a number.
fn link_of(links: &[Link], k: u32) -> Link
    ensures { result ≡ link_at links.now k }
{
    match links.get(k as usize) {
        Some(link) => *link,
        None => NO_LINK,
    }
}

// Makes lists, where there is none.
fn make_ends(ends: &mut Vec<Ends>, lists: usize) -> Result<(), NoMemory>
    requires { length ends.old.items ≡ 0 }
    ensures none { (l : ℕ) → ends_at ends.new.items l ≡ no_ends }
    ensures made { OnOk result (length ends.new.items ≡ lists) }
    ensures err { OnErr result (ends.new.items ≡ ends.old.items) }
{
    ends.resize(lists, NO_ENDS)
}

// The number after this one, by these links.
fn next_of(links: &[Link], k: u32) -> Option<u32>
    ensures { result ≡ (link_at links.now k).next }
{
    match links.get(k as usize) {
        Some(link) => link.next,
        None => None,
    }
}

// Lets `from`, or the list itself, lead on to `to`.
fn lead_on(
    links: &mut Vec<Link>,
    ends: &mut Vec<Ends>,
    list: u32,
    from: Option<u32>,
    to: Option<u32>,
)
    requires made { list < length ends.old.items }
    requires there { ForSome from (λ k. k < length links.old.items) }
    ensures links { links.new.items ≡ next_links from to links.old.items }
    ensures ends { ends.new.items ≡ next_ends list from to ends.old.items }
    ensures links_len { vec_len links.new ≡ vec_len links.old }
    ensures links_capacity { vec_capacity links.new ≡ vec_capacity links.old }
    ensures ends_len { length ends.new.items ≡ length ends.old.items }
{
    match from {
        Some(k) => {
            let link = &mut links[k as usize];
            link.next = to;
        }
        None => {
            let end = &mut ends[list as usize];
            end.first = to;
        }
    }
}

// Lets `to`, or the list itself, lead back to `from`.
fn lead_back(
    links: &mut Vec<Link>,
    ends: &mut Vec<Ends>,
    list: u32,
    to: Option<u32>,
    from: Option<u32>,
)
    requires made { list < length ends.old.items }
    requires there { ForSome to (λ k. k < length links.old.items) }
    ensures links { links.new.items ≡ prev_links to from links.old.items }
    ensures ends { ends.new.items ≡ prev_ends list to from ends.old.items }
    ensures links_len { vec_len links.new ≡ vec_len links.old }
    ensures links_capacity { vec_capacity links.new ≡ vec_capacity links.old }
    ensures ends_len { length ends.new.items ≡ length ends.old.items }
{
    match to {
        Some(k) => {
            let link = &mut links[k as usize];
            link.prev = from;
        }
        None => {
            let end = &mut ends[list as usize];
            end.last = from;
        }
    }
}

// Lists of the numbers from 0 on.
#[derive(Drop)]
pub struct Lists {
    links: Vec<Link>,
    ends: Vec<Ends>,
}

impl Model for Lists {
    ghost use Rattle.std.specs.Prelude.{◌-◌, map, length, vec_len, vec_capacity};
    ghost use Rattle.cf_notify.specs.Links.{Marks, AreLinked};

    ghost Value = { Marks };

    ghost view = { λ s. record {
      marks = map (λ k. k.list) s.links.items;
      lists = length s.ends.items;
      room = vec_capacity s.links - vec_len s.links;
    } };

    ghost invariant = { λ s. AreLinked s.links.items s.ends.items };
}

impl Lists {
    // No number and no list. It takes no memory.
    pub fn new(alloc: Global) -> Lists
        ensures { result ≡ record { marks = []; lists = 0; room = 0 } }
    {
        Lists {
            links: Vec::new(alloc),
            ends: Vec::new(alloc),
        }
    }

    // Makes these many lists, where there was none.
    pub fn make_lists(&mut self, lists: usize) -> Result<(), NoMemory>
        requires { self.old.lists ≡ 0 }
        ensures made { OnOk result (self.new ≡ record self.old { lists = lists }) }
        ensures err { OnErr result (self.new ≡ self.old) }
    {
        make_ends(&mut self.ends, lists)
    }

    // Makes room for at least `more` further numbers.
    pub fn reserve(&mut self, more: usize) -> Result<(), NoMemory>
        ensures marks { self.new.marks ≡ self.old.marks }
        ensures lists { self.new.lists ≡ self.old.lists }
        ensures room { OnOk result (more ≤ self.new.room) }
        ensures kept { self.old.room ≤ self.new.room }
        ensures enough { more ≤ self.old.room → IsOk result }
        ensures err { OnErr result (self.new ≡ self.old) }
    {
        self.links.reserve(more)
    }

    // Gets these lists, where there is none yet, and room for at least `more` further numbers.
    pub fn hold(&mut self, lists: usize, more: usize) -> Result<(), NoMemory>
        ensures marks { self.new.marks ≡ self.old.marks }
        ensures lists { OnOk result (self.new.lists ≡ (if self.old.lists == 0 then lists else self.old.lists)) }
        ensures lists_kept { self.old.lists ≤ self.new.lists }
        ensures whole { 0 < self.new.lists →
            self.new.lists ≡ (if self.old.lists == 0 then lists else self.old.lists) }
        ensures room { OnOk result (more ≤ self.new.room) }
        ensures kept { self.old.room ≤ self.new.room }
    {
        if self.lists() == 0 {
            self.make_lists(lists)?;
        }
        self.reserve(more)
    }

    // How many lists there are.
    pub fn lists(&self) -> usize
        ensures { result ≡ self.now.lists }
    {
        self.ends.len()
    }

    // Puts the next number at the end of a list.
    pub fn append(&mut self, list: u32)
        requires made { list < self.old.lists }
        requires room { 1 ≤ self.old.room }
        requires few { length self.old.marks < 2 ^ 32 }
        ensures { self.new ≡ record self.old {
          marks = self.old.marks ++ Some list ∷ [];
          room = self.old.room - 1;
        } }
    {
        let number = next_number(self.links.as_slice());
        let last = last_of(self.ends.as_slice(), list);
        lead_on(&mut self.links, &mut self.ends, list, last, Some(number));
        lead_back(&mut self.links, &mut self.ends, list, None, Some(number));
        self.links.push_reserved(Link {
            list: Some(list),
            prev: last,
            next: None,
        });
    }

    // Takes a number out of its list, and leaves it in none.
    pub fn remove(&mut self, k: u32)
        requires { IsSome (slice_index_or self.old.marks k None) }
        ensures { self.new ≡ record self.old { marks = slice_set self.old.marks k None } }
    {
        let link = link_of(self.links.as_slice(), k);
        if let Some(list) = link.list {
            lead_on(&mut self.links, &mut self.ends, list, link.prev, link.next);
            lead_back(&mut self.links, &mut self.ends, list, link.next, link.prev);
            self.links[k as usize] = NO_LINK;
        }
    }

    // The first number of a list.
    pub fn first(&self, list: u32) -> Option<u32>
        ensures { IsNext (is_in self.now.marks list) 0 result }
    {
        first_of(self.ends.as_slice(), list)
    }

    // The number after this one in its list.
    pub fn next(&self, k: u32) -> Option<u32>
        ensures { (l : ℕ) → slice_index_or self.now.marks k None ≡ Some l →
            IsNext (is_in self.now.marks l) (k + 1) result }
    {
        next_of(self.links.as_slice(), k)
    }
}
