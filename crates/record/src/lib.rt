// What the fields of a line make: the keys among them, and the head of the record or its refusal.
#![tactic(auto)]

ghost use Rattle.std.specs.Prelude.{◌≡◌, ◌≤◌, ◌+◌};
ghost use Rattle.record.specs.Keys.{no_keys, with_field, head_from};

use field::ParsedField;
use format::{Kind, Version};

// Where a piece of the text is.
#[derive(Clone, Copy)]
pub struct Stretch {
    pub at: usize,
    pub len: usize,
}

// A line's refusal, or its record: version or key, length, and how many other fields it has.
#[derive(Clone, Copy)]
pub enum Head {
    Refused(u8),
    Header(Version, usize),
    ReferenceSequence(Stretch, u64, usize),
    ReadGroup(Stretch, usize),
    Program(Stretch, usize),
    Comment(Stretch),
}

// What the fields read so far give. A key has at least one byte and LN is at least 1, so 0 means that there was none yet.
#[derive(Clone, Copy, Debug, PartialEq, Eq)]
pub struct Keys {
    pub key_at: usize,
    pub key_len: usize,
    pub length: u64,
    pub version: Option<Version>,
    pub others: usize,
}

impl Keys {
    pub fn new() -> Self
        ensures { result ≡ no_keys }
    {
        Keys {
            key_at: 0,
            key_len: 0,
            length: 0,
            version: None,
            others: 0,
        }
    }

    // With one more field, whose value is at `at`. The last value of a key counts, and a tag that comes `again` is not another field.
    pub fn with(mut self, kind: Kind, f: ParsedField, at: usize, again: bool) -> Keys
        requires { self.others + 1 ≤ 18446744073709551615 }
        ensures { result ≡ with_field kind f at again self }
    {
        if !record_tags::is_key(kind, f.tag_0, f.tag_1) {
            if again {
                return self;
            }
            self.others += 1;
            return self;
        }
        if field_tag::is_version(kind, f.tag_0, f.tag_1) {
            self.version = Some(Version::new(f.major, f.minor));
            return self;
        }
        if field_tag::is_length(kind, f.tag_0, f.tag_1) {
            self.length = f.length;
            return self;
        }
        self.key_at = at;
        self.key_len = f.len;
        self
    }

    // At the end of the line: HD needs VN; SQ needs SN, then LN; RG and PG need ID.
    pub fn head(self, kind: Kind) -> Head
        ensures { result ≡ head_from kind self }
    {
        let place = Stretch {
            at: self.key_at,
            len: self.key_len,
        };
        match kind {
            Kind::Header => match self.version {
                Some(version) => Head::Header(version, self.others),
                None => Head::Refused(15),
            },
            Kind::ReferenceSequence => {
                if self.key_len == 0 {
                    return Head::Refused(15); // also where LN is missing too
                }
                if self.length == 0 {
                    return Head::Refused(16);
                }
                Head::ReferenceSequence(place, self.length, self.others)
            }
            Kind::ReadGroup => {
                if self.key_len == 0 {
                    return Head::Refused(15);
                }
                Head::ReadGroup(place, self.others)
            }
            Kind::Program => {
                if self.key_len == 0 {
                    return Head::Refused(15);
                }
                Head::Program(place, self.others)
            }
            Kind::Comment => Head::Refused(15),
        }
    }
}
