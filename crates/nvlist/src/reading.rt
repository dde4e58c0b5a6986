ghost use Rattle.std.specs.Prelude.{◌≡◌, ◌<◌, ◌≤◌, ◌^◌, ℕ, [], List, ◌++◌, length, take, IfOk, IsTrue, Some, string_bytes};
ghost use Rattle.nvlist.specs.Plain.{PlainList};
ghost use Rattle.nvlist.specs.Grammar.{Fits, Spells, spelling, is_printable, is_behind};
ghost use Rattle.nvlist.specs.Reading.{Gives, word_at, number_at, padded_at, text_at, name_at, pair_at, pairs_at, lists_at, lists_value_at, value_of_type_at, value_at, list_at, is_padded_text, is_name_behind};
ghost use Rattle.nvlist.specs.View.{GivesFront, list_view, value_view, lists_view, pair_view, pairs_view};

use crate::list::{LIST, LISTS, MAX_NAME_LEN, NUMBER, NvList, Pair, TEXT, Value, last_name};
use crate::refusal::Refusal;
use crate::text::{is_behind, is_printable};
use std::alloc::Global;
use words::is_zero;

/// How deep lists may lie in one another, the outermost counted.
const MAX_DEPTH: u8 = 6;

/// The word of 32 bits at the front, and the bytes after it.
fn word_of(bytes: &[u8]) -> Result<(u32, &[u8]), Refusal>
    ensures { Gives (λ x. (x.0, x.1.now)) result (word_at bytes.now) }
{
    let Some((word, rest)) = bytes.split_first_chunk::<4>() else {
        return Err(Refusal::BadLabel);
    };
    Ok((u32::from_be_bytes(*word), rest))
}

/// The number of 64 bits at the front.
fn number_of(bytes: &[u8]) -> Result<(u64, &[u8]), Refusal>
    ensures { Gives (λ x. (x.0, x.1.now)) result (number_at bytes.now) }
{
    let Some((number, rest)) = bytes.split_first_chunk::<8>() else {
        return Err(Refusal::BadLabel);
    };
    Ok((u64::from_be_bytes(*number), rest))
}

fn is_padded_text(len: usize, bytes: &[u8]) -> bool
    requires { len ≤ length bytes.now }
    ensures { result ≡ is_padded_text len bytes.now }
{
    let (text, padding) = bytes.split_at(len);
    is_printable(text) && is_zero(padding)
}

/// A text of this length and the zeros behind it.
#[tactic(auto, unfolding(crate::specs::Reading::padded_at))]
fn padded_of(alloc: Global, len: usize, bytes: &[u8]) -> Result<(String, &[u8]), Refusal>
    requires { len < 2 ^ 32 }
    ensures { Gives (λ x. (string_bytes x.0, x.1.now)) result (padded_at len bytes.now) }
{
    let padded = len + (4 - len % 4) % 4;
    if bytes.len() < padded {
        return Err(Refusal::BadLabel);
    }
    let (front, rest) = bytes.split_at(padded);
    if !is_padded_text(len, front) {
        return Err(Refusal::BadLabel);
    }
    let Ok(text) = str::from_utf8(&front[..len]) else {
        return Err(Refusal::BadLabel);
    };
    Ok((String::from_str(alloc, text)?, rest))
}

/// A length, and a text of that length.
#[tactic(auto, unfolding(crate::specs::Reading::text_at))]
fn text_of(alloc: Global, bytes: &[u8]) -> Result<(String, &[u8]), Refusal>
    ensures { Gives (λ x. (string_bytes x.0, x.1.now)) result (text_at bytes.now) }
{
    let (len, rest) = word_of(bytes)?;
    padded_of(alloc, len as usize, rest)
}

/// A name that stands behind the last.
#[tactic(auto, unfolding(crate::specs::Reading::name_at))]
fn name_of<'a>(alloc: Global, last: &[u8], bytes: &'a [u8]) -> Result<(String, &'a [u8]), Refusal>
    ensures { Gives (λ x. (string_bytes x.0, x.1.now)) result (name_at last.now bytes.now) }
{
    let (name, rest) = text_of(alloc, bytes)?;
    if name.len() > MAX_NAME_LEN || !is_behind(name.as_bytes(), last) {
        return Err(Refusal::BadLabel);
    }
    Ok((name, rest))
}

#[tactic(auto, unfolding(crate::specs::Reading::value_at))]
#[cycle(reading)]
fn value_of(alloc: Global, depth: u8, bytes: &[u8]) -> Result<(Value, &[u8]), Refusal>
    ensures { Gives (λ x. (value_view x.0, x.1.now)) result (value_at (list_at depth) bytes.now) }
{
    let (kind, rest) = word_of(bytes)?;
    value_of_type(alloc, depth, kind, rest)
}

#[tactic(auto, unfolding(crate::specs::Reading::value_of_type_at, crate::specs::Reading::lists_value_at))]
#[cycle(reading)]
fn value_of_type(
    alloc: Global,
    depth: u8,
    kind: u32,
    bytes: &[u8],
) -> Result<(Value, &[u8]), Refusal>
    ensures { Gives (λ x. (value_view x.0, x.1.now)) result
        (value_of_type_at (list_at depth) kind bytes.now) }
{
    match kind {
        NUMBER => {
            let (number, rest) = number_of(bytes)?;
            Ok((Value::Number(number), rest))
        }
        TEXT => {
            let (text, rest) = text_of(alloc, bytes)?;
            Ok((Value::Text(text), rest))
        }
        LIST => {
            let (list, rest) = list_of(alloc, depth, bytes)?;
            Ok((Value::List(list), rest))
        }
        LISTS => {
            let (count, rest) = word_of(bytes)?;
            let (lists, rest) = lists_of(alloc, depth, count, rest)?;
            Ok((Value::Lists(lists), rest))
        }
        _ => Err(Refusal::BadLabel),
    }
}

#[cycle(reading)]
fn lists_of(
    alloc: Global,
    depth: u8,
    count: u32,
    bytes: &[u8],
) -> Result<(Vec<NvList>, &[u8]), Refusal>
    ensures { Gives (λ x. (lists_view x.0.items, x.1.now)) result
        (lists_at (list_at depth) count bytes.now) }
{
    let mut lists = Vec::new(alloc);
    let mut rest = bytes;
    for _ in 0..count {
        let (list, after) = list_of(alloc, depth, rest)?;
        lists.push(list)?;
        rest = after;
    }
    Ok((lists, rest))
}

#[tactic(auto, unfolding(crate::specs::Reading::pair_at))]
#[cycle(reading)]
fn pair_of<'a>(
    alloc: Global,
    depth: u8,
    last: &[u8],
    bytes: &'a [u8],
) -> Result<(Pair, &'a [u8]), Refusal>
    ensures { Gives (λ x. (pair_view x.0, x.1.now)) result
        (pair_at (list_at depth) last.now bytes.now) }
{
    let (name, rest) = name_of(alloc, last, bytes)?;
    let (value, rest) = value_of(alloc, depth, rest)?;
    Ok((Pair { name, value }, rest))
}

#[cycle(reading)]
fn pairs_of(alloc: Global, depth: u8, count: u32, bytes: &[u8]) -> Result<(NvList, &[u8]), Refusal>
    ensures { Gives (λ x. (list_view x.0, x.1.now)) result
        (pairs_at (list_at depth) count [] bytes.now) }
{
    let mut pairs = Vec::new(alloc);
    let mut rest = bytes;
    for _ in 0..count {
        let (pair, after) = pair_of(alloc, depth, last_name(&pairs), rest)?;
        pairs.push(pair)?;
        rest = after;
    }
    Ok((NvList { pairs }, rest))
}

#[tactic(auto, unfolding(crate::specs::Reading::list_at))]
#[cycle(reading)]
fn list_of(alloc: Global, depth: u8, bytes: &[u8]) -> Result<(NvList, &[u8]), Refusal>
    ensures { Gives (λ x. (list_view x.0, x.1.now)) result (list_at depth bytes.now) }
{
    if depth == 0 {
        return Err(Refusal::BadLabel);
    }
    let (count, rest) = word_of(bytes)?;
    pairs_of(alloc, depth - 1, count, rest)
}

/// The list at the front of the bytes, and how many bytes spell it. Other bytes may follow.
pub fn decode(alloc: Global, bytes: &[u8]) -> Result<(NvList, usize), Refusal>
    // What is found is spelled so, and by no other bytes.
    ensures len { IfOk result (λ found. found.1 ≤ length bytes.now) }
    ensures found { IfOk result (λ found. Spells (take found.1 bytes.now) (list_view found.0)) }
    // What is spelled at the front is found, unless memory runs out.
    ensures only { (l : PlainList) (rest : List ℕ) → Fits l → bytes.now ≡ spelling l ++ rest
        → GivesFront result l }
{
    let (list, rest) = list_of(alloc, MAX_DEPTH, bytes)?;
    Ok((list, bytes.len() - rest.len()))
}
