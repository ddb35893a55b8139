// Judges a merge of two headers that another tool made: the headers A and B, the merged header, and for each program of A and of B its ordinal in the
// merged header.
#![tactic(auto)]

ghost use Rattle.std.specs.Prelude.{◌≡◌, true};
ghost use Rattle.format.specs.Reading.{read_text};
ghost use Rattle.accepted.specs.Read.{is_accepted, records_of};
ghost use Rattle.accepted_rule.specs.Rule.{ReadsBy};
ghost use Rattle.format.specs.Merge.{judged_merge, judging_merge};
ghost use Rattle.merge_programs.specs.Opened.{Untangled};
ghost use Rattle.merge_judge.specs.Judged.{verdict_of, untangling, after_first, after_second};

use format::Refusal;
use merge_joined::Rules;
use merge_programs::Opened;

// Which of the three texts a refusal is about.
#[derive(Clone, Copy, Debug, PartialEq, Eq)]
pub enum Which {
    A,
    B,
    Merged,
}

// Why a merge is refused: because of one of the texts; or because the texts do not fit together, with a number.
#[derive(Clone, Copy, Debug, PartialEq, Eq)]
pub enum MergeRefusal {
    Unfit(Which, Refusal),
    Unmerged(u8),
}

// That the merge is accepted, or why it is not.
pub type Verdict = Result<(), MergeRefusal>;

// What is known of each of the three accepted texts.
#[derive(Clone, Copy)]
struct Texts {
    a: Opened,
    b: Opened,
    merged: Opened,
}

// The rules for repeated tags that the lines of A and of B are read by.
#[derive(Clone, Copy)]
struct Pair {
    a: bool,
    b: bool,
}

// Judges three accepted texts without dangling PPs and cycles: refuses with 30, 31 or 32.
fn judge_untangled(
    a: &[u8],
    b: &[u8],
    m: &[u8],
    of: Texts,
    list_a: &[u32],
    list_b: &[u32],
) -> Verdict
    requires untangled { Untangled a.now of.a }
    requires untangled_2 { Untangled b.now of.b }
    requires untangled_3 { Untangled m.now of.merged }
    ensures { result ≡ verdict_of (judged_merge (records_of a.now) (records_of b.now) (records_of m.now)
        list_a.now list_b.now) }
{
    let of_a = of.a;
    let of_b = of.b;
    let of_m = of.merged;
    let rules = Rules {
        a: of_a.strict,
        b: of_b.strict,
        merged: of_m.strict,
    };
    if !merge_joined::is_joined(a, b, m, rules) {
        return Err(MergeRefusal::Unmerged(30));
    }
    let in_a = of_a.parents;
    let in_b = of_b.parents;
    let in_m = of_m.parents;
    if !merge_lists::is_assigned(in_a.count, in_b.count, in_m.count, list_a, list_b) {
        return Err(MergeRefusal::Unmerged(31));
    }
    if !merge_programs::has_images(a, of_a, m, of_m, list_a) {
        return Err(MergeRefusal::Unmerged(32));
    }
    if !merge_programs::has_images(b, of_b, m, of_m, list_b) {
        return Err(MergeRefusal::Unmerged(32));
    }
    Ok(())
}

// Judges three accepted texts: refuses with 22 or 23 for each, then judges whether they fit together.
fn judge_accepted(
    a: &[u8],
    b: &[u8],
    m: &[u8],
    rules: Rules,
    list_a: &[u32],
    list_b: &[u32],
) -> Verdict
    requires a_value { is_accepted (read_text a.now) ≡ true }
    requires b_value { is_accepted (read_text b.now) ≡ true }
    requires m_value { is_accepted (read_text m.now) ≡ true }
    requires reads_by { ReadsBy rules.a a.now }
    requires reads_by_2 { ReadsBy rules.b b.now }
    requires reads_by_3 { ReadsBy rules.merged m.now }
    ensures { result ≡ verdict_of (untangling (records_of a.now) (records_of b.now) (records_of m.now)
        list_a.now list_b.now) }
{
    let of_a = merge_programs::open_text(a, rules.a);
    if let Err(number) = of_a.tangle {
        return Err(MergeRefusal::Unfit(Which::A, Refusal::of_text(number)));
    }
    let of_b = merge_programs::open_text(b, rules.b);
    if let Err(number) = of_b.tangle {
        return Err(MergeRefusal::Unfit(Which::B, Refusal::of_text(number)));
    }
    let of_m = merge_programs::open_text(m, rules.merged);
    if let Err(number) = of_m.tangle {
        return Err(MergeRefusal::Unfit(Which::Merged, Refusal::of_text(number)));
    }
    let of = Texts {
        a: of_a,
        b: of_b,
        merged: of_m,
    };
    judge_untangled(a, b, m, of, list_a, list_b)
}

// Reads the merged text, after A and B were read.
fn judge_merged(
    a: &[u8],
    b: &[u8],
    m: &[u8],
    rules: Pair,
    list_a: &[u32],
    list_b: &[u32],
) -> Verdict
    requires a_value { is_accepted (read_text a.now) ≡ true }
    requires b_value { is_accepted (read_text b.now) ≡ true }
    requires reads_by { ReadsBy rules.a a.now }
    requires reads_by_2 { ReadsBy rules.b b.now }
    ensures { result ≡ verdict_of (after_second (records_of a.now) (records_of b.now) m.now
        list_a.now list_b.now) }
{
    match read_judge::judge(m) {
        Err(refusal) => Err(MergeRefusal::Unfit(Which::Merged, refusal)),
        Ok(accepted) => {
            let all = Rules {
                a: rules.a,
                b: rules.b,
                merged: accepted.once,
            };
            judge_accepted(a, b, m, all, list_a, list_b)
        }
    }
}

// B is read, after A was, whose lines are read by `rule` for repeated tags.
fn judge_second(a: &[u8], b: &[u8], m: &[u8], rule: bool, list_a: &[u32], list_b: &[u32]) -> Verdict
    requires a_value { is_accepted (read_text a.now) ≡ true }
    requires reads_by { ReadsBy rule a.now }
    ensures { result ≡ verdict_of (after_first (records_of a.now) b.now m.now
        list_a.now list_b.now) }
{
    match read_judge::judge(b) {
        Err(refusal) => Err(MergeRefusal::Unfit(Which::B, refusal)),
        Ok(accepted) => judge_merged(
            a,
            b,
            m,
            Pair {
                a: rule,
                b: accepted.once,
            },
            list_a,
            list_b,
        ),
    }
}

// Judges a merge. The refusals, in this order: those of reading A, B and the merged text, then 22 and 23 for each, then 30, 31 and 32.
pub fn judge_merge(a: &[u8], b: &[u8], m: &[u8], list_a: &[u32], list_b: &[u32]) -> Verdict
    ensures { result ≡ verdict_of (judging_merge a.now b.now m.now
        list_a.now list_b.now) }
{
    match read_judge::judge(a) {
        Err(refusal) => Err(MergeRefusal::Unfit(Which::A, refusal)),
        Ok(accepted) => judge_second(a, b, m, accepted.once, list_a, list_b),
    }
}
