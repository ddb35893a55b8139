// The hash of a key, which says at which slot of an index the search starts.
ghost use Rattle.std.specs.Prelude.{◌≡◌, ◌<◌};
ghost use Rattle.key_look.specs.Hash.{mixed, words_from, key_hash};

// A hash with one more number mixed in.
fn mix(h: usize, w: usize) -> usize
    requires { (h < 4294967296) × (w < 4294967296) }
    ensures { result ≡ mixed h w }
{
    let p = (h + w) % 4294967296 * 2654435761;
    (p % 4294967296 + p / 4294967296) % 4294967296
}

// The hash of the whole four-byte words of a key.
fn hash_words(kind: u8, id: &[u8]) -> usize
    ensures { result ≡ words_from kind id.now }
{
    let mut h: usize = kind as usize;
    let mut i: usize = 0;
    while 4 <= id.len() - i {
        h = mix(h, little_endian::get_u32(id, i) as usize);
        i += 4;
    }
    h
}

// The hash of a key of this kind: of its words, and then of the bytes that are left.
pub fn hash(kind: u8, id: &[u8]) -> usize
    ensures { result ≡ key_hash kind id.now }
{
    let mut h = hash_words(kind, id);
    let rest = &id[id.len() - id.len() % 4..];
    for b in rest {
        h = mix(h, *b as usize);
    }
    h
}
