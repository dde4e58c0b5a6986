//! The values of a list's pairs, by their names.
ghost use Rattle.std.specs.Prelude.{◌≡◌, ◌≢◌, ◌≤◌, ◌↔◌, ℕ, List, IfOk, IfErr, IsTrue, Some};
ghost use Rattle.nvlist.specs.Find.{find};
ghost use Rattle.nvlist.specs.Plain.{PlainList, PlainLists, number, text, list, lists};
ghost use Rattle.nvlist.specs.View.{list_view, lists_view};
ghost use Rattle.vdev_label.specs.Pairs.{IsCount};
ghost use Rattle.vdev_label.specs.Refuses.{Refuses};

use crate::refusal::{Breach, Refusal};
use nvlist::NvList;
use words::LAST_COUNT;

/// What is answered where a pair is missing, of another type, additional or out of range.
pub(crate) const BAD_PAIRS: Refusal = Refusal::BadLabel(Breach::Pairs);

#[tactic(auto, using(crate::proofs::Lookups::is_number, crate::proofs::Lookups::no_number))]
pub(crate) fn number_of(pairs: &NvList, name: &str) -> Result<u64, Refusal>
    ensures found { IfOk result (λ n. find name.now (list_view pairs.now) ≡ Some (number n)) }
    ensures bad { IfErr result (λ refusal. Refuses refusal ((n : ℕ)
        → find name.now (list_view pairs.now) ≢ Some (number n))) }
{
    match pairs.number(name) {
        Some(n) => Ok(n),
        None => Err(BAD_PAIRS),
    }
}

/// Whether the pair of that name is this number.
pub(crate) fn has_number(pairs: &NvList, name: &str, expected: u64) -> bool
    ensures { IsTrue result ↔ (find name.now (list_view pairs.now) ≡ Some (number expected)) }
{
    match pairs.number(name) {
        Some(n) => n == expected,
        None => false,
    }
}

/// Whether the pair of that name is this text.
pub(crate) fn has_text(pairs: &NvList, name: &str, expected: &str) -> bool
    ensures { IsTrue result ↔ (find name.now (list_view pairs.now) ≡ Some (text expected.now)) }
{
    match pairs.text(name) {
        Some(t) => t == expected,
        None => false,
    }
}

/// A number that counts from 1.
pub(crate) fn count_of(pairs: &NvList, name: &str) -> Result<u64, Refusal>
    ensures found { IfOk result (λ n. find name.now (list_view pairs.now) ≡ Some (number n)) }
    ensures count { IfOk result (λ n. IsCount n) }
    ensures bad { IfErr result (λ refusal. Refuses refusal ((n : ℕ) → IsCount n
        → find name.now (list_view pairs.now) ≢ Some (number n))) }
{
    let n = number_of(pairs, name)?;
    if n == 0 || LAST_COUNT < n {
        return Err(BAD_PAIRS);
    }
    Ok(n)
}

#[tactic(auto, using(crate::proofs::Lookups::is_text, crate::proofs::Lookups::no_text))]
pub(crate) fn text_of<'a>(pairs: &'a NvList, name: &str) -> Result<&'a str, Refusal>
    ensures found { IfOk result (λ t. find name.now (list_view pairs.now) ≡ Some (text t.now)) }
    ensures bad { IfErr result (λ refusal. Refuses refusal ((t : List ℕ)
        → find name.now (list_view pairs.now) ≢ Some (text t))) }
{
    match pairs.text(name) {
        Some(t) => Ok(t),
        None => Err(BAD_PAIRS),
    }
}

#[tactic(auto, using(crate::proofs::Lookups::is_list, crate::proofs::Lookups::no_list))]
pub(crate) fn list_of<'a>(pairs: &'a NvList, name: &str) -> Result<&'a NvList, Refusal>
    ensures found { IfOk result (λ l. find name.now (list_view pairs.now)
        ≡ Some (list (list_view l.now))) }
    ensures bad { IfErr result (λ refusal. Refuses refusal ((l : PlainList)
        → find name.now (list_view pairs.now) ≢ Some (list l))) }
{
    match pairs.list(name) {
        Some(l) => Ok(l),
        None => Err(BAD_PAIRS),
    }
}

#[tactic(auto, using(crate::proofs::Lookups::is_lists, crate::proofs::Lookups::no_lists_there))]
pub(crate) fn lists_of<'a>(pairs: &'a NvList, name: &str) -> Result<&'a [NvList], Refusal>
    ensures found { IfOk result (λ ls. find name.now (list_view pairs.now)
        ≡ Some (lists (lists_view ls.now))) }
    ensures bad { IfErr result (λ refusal. Refuses refusal ((ls : PlainLists)
        → find name.now (list_view pairs.now) ≢ Some (lists ls))) }
{
    match pairs.lists(name) {
        Some(ls) => Ok(ls),
        None => Err(BAD_PAIRS),
    }
}
