ghost use Rattle.std.specs.Prelude.{◌≡◌, ◌<◌, ◌^◌, [], ◌++◌, length, OnOk, OnErr, string_bytes};
ghost use Rattle.std.specs.Int.{w32, w64, to_be_bytes};
ghost use Rattle.nvlist.specs.Grammar.{Fits, FitsList, FitsBehind, FitsLists, FitsValue, text_bytes, value_bytes, pairs_bytes, lists_bytes, spelling};
ghost use Rattle.nvlist.specs.View.{list_view, value_view, lists_view, pairs_view};

use crate::list::{LIST, LISTS, NUMBER, NvList, Pair, TEXT, Value};
use std::alloc::{AllocError, Global};

/// Appends the one spelling of a list. An error leaves `out` as it was.
pub fn encode(alloc: Global, list: &NvList, out: &mut Vec<u8>) -> Result<(), AllocError>
    requires { Fits (list_view list.now) }
    ensures ok { OnOk result (out.new.items ≡ out.old.items ++ spelling (list_view list.now)) }
    ensures err { OnErr result (out.new.items ≡ out.old.items) }
{
    let mut bytes = Vec::new(alloc);
    put_list(list, &mut bytes)?;
    out.extend_from_slice(&bytes)
}

fn put_word(word: u32, out: &mut Vec<u8>) -> Result<(), AllocError>
    ensures { OnOk result (out.new.items ≡ out.old.items ++ to_be_bytes w32 word) }
{
    out.extend_from_slice(&word.to_be_bytes())
}

fn put_text(text: &str, out: &mut Vec<u8>) -> Result<(), AllocError>
    requires { length text.now < 2 ^ 32 }
    ensures { OnOk result (out.new.items ≡ out.old.items ++ text_bytes text.now) }
{
    let padding = (4 - text.len() % 4) % 4;
    put_word(text.len() as u32, out)?;
    out.extend_from_slice(text.as_bytes())?;
    out.extend_from_slice(&[0; 3][..padding])?;
    Ok(())
}

/// The number of pairs, and the pairs.
#[cycle(writing)]
fn put_list(list: &NvList, out: &mut Vec<u8>) -> Result<(), AllocError>
    requires { FitsList (list_view list.now) }
    ensures { OnOk result (out.new.items ≡ out.old.items ++ spelling (list_view list.now)) }
{
    put_word(list.pairs.len() as u32, out)?;
    put_pairs(&list.pairs, out)?;
    Ok(())
}

#[cycle(writing)]
fn put_pairs(pairs: &[Pair], out: &mut Vec<u8>) -> Result<(), AllocError>
    requires { FitsBehind [] (pairs_view pairs.now) }
    ensures { OnOk result (out.new.items ≡ out.old.items ++ pairs_bytes (pairs_view pairs.now)) }
{
    for pair in pairs {
        put_text(pair.name.as_str(), out)?;
        put_value(&pair.value, out)?;
    }
    Ok(())
}

#[cycle(writing)]
fn put_lists(lists: &[NvList], out: &mut Vec<u8>) -> Result<(), AllocError>
    requires { FitsLists (lists_view lists.now) }
    ensures { OnOk result (out.new.items ≡ out.old.items ++ lists_bytes (lists_view lists.now)) }
{
    for list in lists {
        put_list(list, out)?;
    }
    Ok(())
}

/// The number of the value's type, and the value.
#[cycle(writing)]
fn put_value(value: &Value, out: &mut Vec<u8>) -> Result<(), AllocError>
    requires { FitsValue (value_view value.now) }
    ensures { OnOk result (out.new.items ≡ out.old.items ++ value_bytes (value_view value.now)) }
{
    match value {
        Value::Number(number) => {
            put_word(NUMBER, out)?;
            out.extend_from_slice(&number.to_be_bytes())?;
            Ok(())
        }
        Value::Text(text) => {
            put_word(TEXT, out)?;
            put_text(text.as_str(), out)?;
            Ok(())
        }
        Value::List(list) => {
            put_word(LIST, out)?;
            put_list(list, out)?;
            Ok(())
        }
        Value::Lists(lists) => {
            put_word(LISTS, out)?;
            put_word(lists.len() as u32, out)?;
            put_lists(lists, out)?;
            Ok(())
        }
    }
}
