// One number per kind of record, and whether a text of so many bytes can be written.
#![tactic(auto)]

ghost use Rattle.std.specs.Prelude.{◌≡◌, ◌≤◌, ◌+◌};
ghost use Rattle.tidy_sizes.specs.Numbers.{no_bytes, get, plus, front, total, kind_starts};
ghost use Rattle.tidy_sizes.specs.Plan.{unfit};

use format::Kind;

// One number per kind of record: how many bytes the records of the kind take, or where the next one goes.
#[derive(Clone, Copy)]
pub struct PerKind {
    pub hd: usize,
    pub sq: usize,
    pub rg: usize,
    pub pg: usize,
    pub co: usize,
}

impl PerKind {
    pub fn new() -> Self
        ensures { result ≡ no_bytes }
    {
        PerKind {
            hd: 0,
            sq: 0,
            rg: 0,
            pg: 0,
            co: 0,
        }
    }

    // The number of a kind.
    pub fn get(self, kind: Kind) -> usize
        ensures { result ≡ get kind self }
    {
        match kind {
            Kind::Header => self.hd,
            Kind::ReferenceSequence => self.sq,
            Kind::ReadGroup => self.rg,
            Kind::Program => self.pg,
            Kind::Comment => self.co,
        }
    }

    // The same numbers with `n` added for a kind.
    pub fn plus(self, kind: Kind, n: usize) -> PerKind
        requires { get kind self + n ≤ 18446744073709551615 }
        ensures { result ≡ plus kind n self }
    {
        let mut next = self;
        match kind {
            Kind::Header => {
                next.hd = next.hd + n;
            }
            Kind::ReferenceSequence => {
                next.sq = next.sq + n;
            }
            Kind::ReadGroup => {
                next.rg = next.rg + n;
            }
            Kind::Program => {
                next.pg = next.pg + n;
            }
            Kind::Comment => {
                next.co = next.co + n;
            }
        }
        next
    }

    // The sum for all kinds but the comments.
    pub fn front(self) -> usize
        requires { front self ≤ 18446744073709551615 }
        ensures { result ≡ front self }
    {
        self.hd + self.sq + self.rg + self.pg
    }

    // The sum for all kinds.
    pub fn total(self) -> usize
        requires { total self ≤ 18446744073709551615 }
        ensures { result ≡ total self }
    {
        self.hd + self.sq + self.rg + self.pg + self.co
    }

    // Where the records of each kind start, with `gap` bytes before the comments.
    pub fn starts(self, gap: usize) -> PerKind
        requires { front self + gap ≤ 18446744073709551615 }
        ensures { result ≡ kind_starts gap self }
    {
        let sq = self.hd;
        let rg = sq + self.sq;
        let pg = rg + self.rg;
        PerKind {
            hd: 0,
            sq,
            rg,
            pg,
            co: pg + self.pg + gap,
        }
    }
}

// Whether a text of `n` and `more` bytes can be written with `besides` other bytes to an output of `room` bytes: 0, or the refusal. That is 1 if the
// text is longer than a text may be, then 20 if the output is too short.
pub fn fit(n: usize, more: usize, besides: usize, room: usize) -> u8
    requires { 16777216 + besides ≤ 18446744073709551615 }
    ensures { result ≡ unfit (n + more) besides room }
{
    if format::LONGEST < n {
        return 1;
    }
    if format::LONGEST - n < more {
        return 1;
    }
    if room < n + more + besides {
        return 20;
    }
    0
}
