ghost use Rattle.std.specs.Prelude.{◌≡◌, ◌↔◌, IsTrue, OnOk, OnErr, IsErrOf, option_map};
ghost use Rattle.std.specs.Option.{option_copied};
ghost use Rattle.nvlist.specs.Plain.{no_pairs, pair_count, last_name};
ghost use Rattle.nvlist.specs.Grammar.{IsNameBehind};
ghost use Rattle.nvlist.specs.View.{list_view, lists_view, pairs_view, value_view};
ghost use Rattle.nvlist.specs.Find.{find, number_in, text_in, list_in, lists_in, with_pair};

use crate::refusal::Refusal;
use crate::text::{is_behind, is_printable};
use std::alloc::Global;

/// How many bytes a name has at most.
pub(crate) const MAX_NAME_LEN: usize = 64;

/// The numbers of the types of values, which are those of libnvpair's `data_type_t`.
pub(crate) const NUMBER: u32 = 8;

pub(crate) const TEXT: u32 = 9;

pub(crate) const LIST: u32 = 19;

pub(crate) const LISTS: u32 = 20;

/// A list of pairs, whose names ascend in byte order.
#[derive(Drop)]
#[cycle(nvlist)]
pub struct NvList {
    pub(crate) pairs: Vec<Pair>,
}

/// A name and its value.
#[derive(Drop)]
#[cycle(nvlist)]
pub struct Pair {
    pub(crate) name: String,
    pub(crate) value: Value,
}

/// The value of a pair.
#[derive(Drop)]
#[cycle(nvlist)]
pub enum Value {
    /// A number of 64 bits.
    Number(u64),
    /// Printable ASCII.
    Text(String),
    List(NvList),
    Lists(Vec<NvList>),
}

impl NvList {
    /// A list with no pairs.
    pub fn new(alloc: Global) -> NvList
        ensures { list_view result ≡ no_pairs }
    {
        NvList {
            pairs: Vec::new(alloc),
        }
    }

    /// How many pairs there are.
    pub fn len(&self) -> usize
        ensures { result ≡ pair_count (list_view self.now) }
    {
        self.pairs.len()
    }

    pub fn is_empty(&self) -> bool
        ensures { IsTrue result ↔ (list_view self.now ≡ no_pairs) }
    {
        self.pairs.is_empty()
    }

    /// The number of that name, where there is one.
    pub fn number(&self, name: &str) -> Option<u64>
        ensures { result ≡ number_in (find name.now (list_view self.now)) }
    {
        match value_of(&self.pairs, name)? {
            Value::Number(number) => Some(*number),
            _ => None,
        }
    }

    /// The text of that name, where there is one.
    pub fn text(&self, name: &str) -> Option<&str>
        ensures { option_copied result ≡ text_in (find name.now (list_view self.now)) }
    {
        match value_of(&self.pairs, name)? {
            Value::Text(text) => Some(text.as_str()),
            _ => None,
        }
    }

    /// The list of that name, where there is one.
    pub fn list(&self, name: &str) -> Option<&NvList>
        ensures { option_map (λ l. list_view l.now) result
            ≡ list_in (find name.now (list_view self.now)) }
    {
        match value_of(&self.pairs, name)? {
            Value::List(list) => Some(list),
            _ => None,
        }
    }

    /// The lists of that name, where there are any.
    pub fn lists(&self, name: &str) -> Option<&[NvList]>
        ensures { option_map (λ ls. lists_view ls.now) result
            ≡ lists_in (find name.now (list_view self.now)) }
    {
        match value_of(&self.pairs, name)? {
            Value::Lists(lists) => Some(lists.as_slice()),
            _ => None,
        }
    }

    /// Adds a pair at the end. A name that has no or more than 64 bytes, that is not printable ASCII,
    /// or that does not stand behind the last one in byte order, is refused with `BadLabel`. A refusal
    /// leaves the list as it was.
    pub fn push(&mut self, name: &str, value: Value) -> Result<(), Refusal>
        ensures ok { OnOk result (list_view self.new
            ≡ with_pair (list_view self.old) name.now (value_view value)) }
        ensures named { OnOk result (IsNameBehind (last_name (list_view self.old)) name.now) }
        ensures bad { IsErrOf result Refusal.BadLabel
            → ¬ IsNameBehind (last_name (list_view self.old)) name.now }
        ensures err { OnErr result (list_view self.new ≡ list_view self.old) }
    {
        if name.len() > MAX_NAME_LEN
            || !is_printable(name.as_bytes())
            || !is_behind(name.as_bytes(), last_name(&self.pairs))
        {
            return Err(Refusal::BadLabel);
        }
        let alloc = *self.pairs.allocator();
        let name = String::from_str(alloc, name)?;
        self.pairs.push(Pair { name, value })?;
        Ok(())
    }
}

/// The name of the last pair, or no bytes where there is none.
pub(crate) fn last_name(pairs: &[Pair]) -> &[u8]
    ensures { result.now ≡ last_name (pairs_view pairs.now) }
{
    match pairs.last() {
        Some(pair) => pair.name.as_bytes(),
        None => &[],
    }
}

/// The value of a name.
fn value_of<'a>(pairs: &'a [Pair], name: &str) -> Option<&'a Value>
    ensures { option_map (λ v. value_view v.now) result ≡ find name.now (pairs_view pairs.now) }
{
    for pair in pairs {
        if pair.name.as_str() == name {
            return Some(&pair.value);
        }
    }
    None
}
