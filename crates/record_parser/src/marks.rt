// The marks of the tags of a line: where the mark of each is, and what it means.
ghost use Rattle.std.specs.Prelude.{◌≡◌, true, ◌&&◌, ◌||◌};
ghost use Rattle.format.specs.Fields.{is_tag};
ghost use Rattle.record_tags.specs.Occurs.{occurs};
ghost use Rattle.record_parser.specs.Marks.{mark_place};

// The place of a tag's mark. If `exact`, each tag has a place of its own among 4,350, because its bytes are 65 to 122 and 48 to 122. Otherwise it is
// one of 64 places, and the tags that the specification has for one record have different ones.
pub fn mark_of(a: u8, b: u8, exact: bool) -> usize
    requires { is_tag a b ≡ true }
    ensures { result ≡ mark_place exact a b }
{
    if exact {
        return (a as usize - 65) * 75 + (b as usize - 48);
    }
    ((a as usize) * 4 + (b as usize)) % 64
}

// Whether the tag `a`, `b`, whose mark is `seen`, is among the fields `src`. If the marks are not exact, a mark is not enough, and the fields are
// searched.
pub fn stands_again(src: &[u8], a: u8, b: u8, exact: bool, seen: bool) -> bool
    ensures { result ≡ (seen && (exact || occurs a b src.now)) }
{
    seen && (exact || record_tags::occurs(src, a, b))
}
