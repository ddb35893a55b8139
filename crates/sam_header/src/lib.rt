// The calls for programs in C and Rust: each answer is one number (include/sam_header.h). `sam_header_c` exports them.
#![tactic(auto)]

ghost use Rattle.std.specs.Prelude.{◌≡◌, length};
ghost use Rattle.format.specs.Calls.{reading, fresh, tidying, counting, keying, sizing, locating, valuing, rooting, leafing, adding};
ghost use Rattle.format.specs.Work.{all_zeros, reading_with};
ghost use Rattle.format.specs.Prune.{pruning};
ghost use Rattle.carry_on.specs.Answers.{carried_answer, text_left, table_left};
ghost use Rattle.format.specs.Faults.{faulting};
ghost use Rattle.faults.specs.Answers.{faulty_lines};
ghost use Rattle.format.specs.Batch.{batching};
ghost use Rattle.names.specs.Answers.{names_of, results_of, slots_of};
ghost use Rattle.read.specs.Answers.{answer_of, output_of, checked_of};
ghost use Rattle.calls.specs.Answers.{count_of, key_answer_of, length_answer_of, line_answer_of, value_place_of};
ghost use Rattle.programs.specs.Answers.{leaves_answer_of, list_of};
ghost use Rattle.programs_by_table.specs.Answers.{seated_answer, seated_leaves, nodes_left};
ghost use Rattle.format.specs.Merge.{judging_merge};
ghost use Rattle.merge_judge.specs.Judged.{verdict_of};
ghost use Rattle.format.specs.Binary.{binary_out, binary_in};
ghost use Rattle.sam_header_words.specs.Words.{answer_word, checked_word, carried_word, leaves_word, key_word, field_word, length_word, line_word, length_left};
ghost use Rattle.sam_header_words.specs.Words.{names_word, names_left, verdict_word, len_word};
ghost use Rattle.format.specs.TextLen.{text_len};
ghost use Rattle.binary_len.specs.BinaryLen.{binary_len};
ghost use Rattle.format.specs.Finding.{finding};
ghost use Rattle.find.specs.Answers.{find_answer_of};
ghost use Rattle.format.specs.Referencing.{referencing};
ghost use Rattle.references.specs.Answers.{row_count_of, numbers_of};
ghost use Rattle.sam_header_words.specs.Words.{find_word};
ghost use Rattle.format.specs.Seal.{sealing, tidying_fresh, checking_sealed};
ghost use Rattle.seal.specs.Answers.{seal_left};

use format::Node;

pub fn sam_header_read(text: &[u8], catalogue: &mut [u8]) -> u64
    ensures answer { result ≡ answer_word (answer_of (reading text.now (length catalogue.old))) }
    ensures wrote { catalogue.new ≡ output_of (reading text.now (length catalogue.old)) catalogue.old }
{
    sam_header_words::answer_word(read::read(text, catalogue))
}

pub fn sam_header_check(text: &[u8], catalogue: &[u8]) -> u64
    ensures { result ≡ checked_word (checked_of (fresh text.now catalogue.now)) }
{
    sam_header_words::checked_word(read::check(text, catalogue))
}

pub fn sam_header_tidy(text: &[u8], out: &mut [u8]) -> u64
    ensures answer { result ≡ answer_word (answer_of (tidying text.now (length out.old))) }
    ensures wrote { out.new ≡ output_of (tidying text.now (length out.old)) out.old }
{
    sam_header_words::answer_word(tidy::tidy(text, out))
}

pub fn sam_header_read_with(text: &[u8], catalogue: &mut [u8], work: &mut [u32]) -> u64
    ensures answer { result ≡ answer_word (answer_of (reading_with text.now (length catalogue.old) work.old).0) }
    ensures wrote { catalogue.new
        ≡ output_of (reading_with text.now (length catalogue.old) work.old).0 catalogue.old }
    ensures zeros { work.new ≡ (reading_with text.now (length catalogue.old) work.old).1 }
{
    sam_header_words::answer_word(read::read_with(text, catalogue, work))
}

pub fn sam_header_check_with(text: &[u8], catalogue: &[u8], work: &mut [u32]) -> u64
    ensures checked { result ≡ checked_word (checked_of (fresh text.now catalogue.now)) }
    ensures zeros { work.new ≡ all_zeros work.old }
{
    sam_header_words::checked_word(read::check_with(text, catalogue, work))
}

pub fn sam_header_tidy_with(text: &[u8], out: &mut [u8], work: &mut [u32]) -> u64
    ensures answer { result ≡ answer_word (answer_of (tidying text.now (length out.old))) }
    ensures wrote { out.new ≡ output_of (tidying text.now (length out.old)) out.old }
    ensures zeros { work.new ≡ all_zeros work.old }
{
    sam_header_words::answer_word(tidy::tidy_with(text, out, work))
}

pub fn sam_header_carry_on(text: &[u8], out: &mut [u8], table: &mut [u32]) -> u64
    ensures answer { result ≡ carried_word (carried_answer text.now out.old table.old) }
    ensures wrote { out.new ≡ text_left text.now out.old table.old }
    ensures listed { table.new ≡ table_left text.now out.old table.old }
{
    sam_header_words::carried_word(carry_on::carry_on(text, out, table))
}

pub fn sam_header_carry_on_with(
    text: &[u8],
    out: &mut [u8],
    table: &mut [u32],
    work: &mut [u32],
) -> u64
    ensures answer { result ≡ carried_word (carried_answer text.now out.old table.old) }
    ensures wrote { out.new ≡ text_left text.now out.old table.old }
    ensures listed { table.new ≡ table_left text.now out.old table.old }
    ensures zeros { work.new ≡ all_zeros work.old }
{
    sam_header_words::carried_word(carry_on::carry_on_with(text, out, table, work))
}

pub fn sam_header_faults(text: &[u8], table: &mut [u32]) -> u64
    ensures answer { result ≡ answer_word (faulty_lines (faulting text.now (length table.old))) }
    ensures listed { table.new ≡ output_of (faulting text.now (length table.old)) table.old }
{
    sam_header_words::answer_word(faults::faults(text, table))
}

pub fn sam_header_binary_out(text: &[u8], out: &mut [u8]) -> u64
    ensures answer { result ≡ answer_word (answer_of (binary_out text.now (length out.old))) }
    ensures wrote { out.new ≡ output_of (binary_out text.now (length out.old)) out.old }
{
    sam_header_words::answer_word(binary_out::binary_out(text, out))
}

pub fn sam_header_binary_in(bytes: &[u8], out: &mut [u8]) -> u64
    ensures answer { result ≡ answer_word (answer_of (binary_in bytes.now (length out.old))) }
    ensures wrote { out.new ≡ output_of (binary_in bytes.now (length out.old)) out.old }
{
    sam_header_words::answer_word(binary_in::binary_in(bytes, out))
}

pub fn sam_header_text_len(bytes: &[u8]) -> u64
    ensures { result ≡ text_len bytes.now }
{
    text_len::text_len(bytes) as u64
}

pub fn sam_header_binary_len(bytes: &[u8]) -> u64
    ensures { result ≡ len_word (binary_len bytes.now) }
{
    sam_header_words::len_word(binary_len::binary_len(bytes))
}

pub fn sam_header_count(text: &[u8], catalogue: &[u8], kind: u8) -> u64
    ensures { result ≡ answer_word (count_of (counting text.now catalogue.now kind)) }
{
    sam_header_words::answer_word(calls::count(text, catalogue, kind))
}

pub fn sam_header_roots(text: &[u8], catalogue: &[u8], out: &mut [u32]) -> u64
    ensures answer { result ≡ answer_word (answer_of (rooting text.now catalogue.now (length out.old))) }
    ensures wrote { out.new ≡ output_of (rooting text.now catalogue.now (length out.old)) out.old }
{
    sam_header_words::answer_word(programs::roots(text, catalogue, out))
}

pub fn sam_header_leaves(text: &[u8], catalogue: &[u8], out: &mut [u32]) -> u64
    ensures answer { result ≡ leaves_word (leaves_answer_of (leafing text.now catalogue.now (length out.old))) }
    ensures wrote { out.new ≡ output_of (list_of (leafing text.now catalogue.now (length out.old)))
        out.old }
{
    sam_header_words::leaves_word(programs::leaves(text, catalogue, out))
}

pub fn sam_header_leaves_by_table(
    text: &[u8],
    catalogue: &[u8],
    table: &mut [Node],
    out: &mut [u32],
) -> u64
    ensures answer { result ≡ leaves_word (seated_answer text.now catalogue.now (length table.old) out.old) }
    ensures wrote { out.new ≡ seated_leaves text.now catalogue.now (length table.old) out.old }
    ensures tabled { table.new ≡ nodes_left text.now catalogue.now table.old out.old }
{
    sam_header_words::leaves_word(programs_by_table::leaves_by_table(text, catalogue, table, out))
}

pub fn sam_header_key(text: &[u8], catalogue: &[u8], kind: u8, ordinal: u32) -> u64
    ensures { result ≡ key_word (key_answer_of (keying text.now catalogue.now kind ordinal)) }
{
    sam_header_words::key_word(calls::key(text, catalogue, kind, ordinal))
}

pub fn sam_header_length(text: &[u8], catalogue: &[u8], ordinal: u32, ln: &mut u64) -> u64
    ensures answer { result ≡ length_word (length_answer_of (sizing text.now catalogue.now ordinal)) }
    ensures wrote { ln.new ≡ length_left (length_answer_of (sizing text.now catalogue.now ordinal)) ln.old }
{
    match calls::length(text, catalogue, ordinal) {
        Err(refusal) => sam_header_words::refusal_word(refusal),
        Ok(n) => {
            *ln = n;
            0
        }
    }
}

pub fn sam_header_line(text: &[u8], catalogue: &[u8], kind: u8, ordinal: u32) -> u64
    ensures { result ≡ line_word (line_answer_of (locating text.now catalogue.now kind ordinal)) }
{
    sam_header_words::line_word(calls::line(text, catalogue, kind, ordinal))
}

pub fn sam_header_find(text: &[u8], catalogue: &[u8], kind: u8, key: &[u8]) -> u64
    ensures { result ≡ find_word (find_answer_of (finding text.now catalogue.now kind key.now)) }
{
    sam_header_words::find_word(find::find(text, catalogue, kind, key))
}

pub fn sam_header_references(text: &[u8], catalogue: &[u8], table: &mut [u32]) -> u64
    ensures answer { result ≡ answer_word (row_count_of (referencing text.now catalogue.now (length table.old))) }
    ensures wrote { table.new ≡ output_of
        (numbers_of (referencing text.now catalogue.now (length table.old))) table.old }
{
    sam_header_words::answer_word(references::references(text, catalogue, table))
}

pub fn sam_header_field(
    text: &[u8],
    catalogue: &[u8],
    kind: u8,
    ordinal: u32,
    tag_0: u8,
    tag_1: u8,
) -> u64
    ensures { result ≡ field_word (value_place_of (valuing text.now catalogue.now kind ordinal tag_0 tag_1)) }
{
    sam_header_words::field_word(calls::place(text, catalogue, kind, ordinal, tag_0, tag_1))
}

pub fn sam_header_add(
    text: &[u8],
    catalogue: &[u8],
    prefix: &[u8],
    fields: &[u8],
    out: &mut [u8],
) -> u64
    ensures answer { result ≡ answer_word
        (answer_of (adding text.now catalogue.now prefix.now fields.now (length out.old))) }
    ensures wrote { out.new ≡ output_of
        (adding text.now catalogue.now prefix.now fields.now (length out.old)) out.old }
{
    sam_header_words::answer_word(add::add(text, catalogue, prefix, fields, out))
}

pub fn sam_header_prune(text: &[u8], catalogue: &[u8], used: &[u32], out: &mut [u8]) -> u64
    ensures answer { result ≡ answer_word
        (answer_of (pruning text.now catalogue.now used.now (length out.old))) }
    ensures wrote { out.new ≡ output_of
        (pruning text.now catalogue.now used.now (length out.old)) out.old }
{
    sam_header_words::answer_word(prune::prune(text, catalogue, used, out))
}

pub fn sam_header_names(
    text: &[u8],
    catalogue: &[u8],
    list: &[u8],
    work: &mut [u32],
    out: &mut [u32],
    inspected: &mut u64,
) -> u64
    ensures answer { result ≡ names_word
        (names_of (batching text.now catalogue.now list.now (length work.old) (length out.old))) }
    ensures slots { work.new ≡ output_of
        (slots_of (batching text.now catalogue.now list.now (length work.old) (length out.old)))
        work.old }
    ensures found { out.new ≡ output_of
        (results_of (batching text.now catalogue.now list.now (length work.old) (length out.old)))
        out.old }
    ensures looks { inspected.new ≡ names_left
        (names_of (batching text.now catalogue.now list.now (length work.old) (length out.old)))
        inspected.old }
{
    match names::names(text, catalogue, list, work, out) {
        Err(refusal) => sam_header_words::refusal_word(refusal),
        Ok(counted) => {
            *inspected = counted.looks;
            counted.names as u64
        }
    }
}

pub fn sam_header_judge_merge(
    a: &[u8],
    b: &[u8],
    merged: &[u8],
    list_a: &[u32],
    list_b: &[u32],
) -> u64
    ensures { result ≡ verdict_word (verdict_of (judging_merge a.now b.now merged.now
        list_a.now list_b.now)) }
{
    sam_header_words::verdict_word(merge_judge::judge_merge(a, b, merged, list_a, list_b))
}

pub fn sam_header_seal(text: &[u8], work: &mut [u8], seal: &mut [u8; 32]) -> u64
    ensures answer { result ≡ answer_word (answer_of (tidying text.now (length work.old))) }
    ensures wrote { work.new ≡ output_of (tidying text.now (length work.old)) work.old }
    ensures sealed { seal.new ≡ seal_left (sealing text.now (length work.old)) seal.old }
{
    sam_header_words::answer_word(seal::seal(text, work, seal))
}

pub fn sam_header_check_sealed(
    text: &[u8],
    catalogue: &[u8],
    seal: &[u8; 32],
    work: &mut [u8],
) -> u64
    ensures checked { result ≡ checked_word
        (checked_of (checking_sealed text.now catalogue.now seal.now (length work.old))) }
    ensures wrote { work.new
        ≡ output_of (tidying_fresh text.now catalogue.now (length work.old)) work.old }
{
    sam_header_words::checked_word(seal::check_sealed(text, catalogue, seal, work))
}
