//! The pool's stale spans: which groups each disk missed.
ghost use Rattle.std.specs.Prelude.{◌≡◌, ◌≢◌, ◌↔◌, ◌^◌, ◌<◌, ◌≤◌, ◌++◌, [], ℕ, List, Some, None, length, take, slice_index_or, All, Contains, MatchOption, IsTrue, IfOk, IfErr, IfSome, IsOkAnd, IsErrOf, OnOk};
ghost use Rattle.objset.specs.Changes.{IsGoodChange, MayChange, after_change};
ghost use Rattle.objset.specs.Objects.{Object};
ghost use Rattle.object_table.specs.Tables.{IsOfKind};
ghost use Rattle.meta_objset.specs.declared.stale_spans.StaleSpan.{StaleSpan};
ghost use Rattle.meta_objset.specs.StaleSpans.{AreStaleSpans, FitsSpan, IsWithSpan, IsWithoutDisk, LacksDisk, SpellsSpans, span_bytes, span_words, spans_bytes, spans_kind};
ghost use Rattle.meta_objset.specs.Reading.{HasStaleSpans};

use crate::word_rows::{SHAPE, first_words, push_words};
use object_table::{Refusal, TableKind};
use objset::Change;
use std::alloc::{AllocError, Global};
use std::marker::Model;

/// The groups whose blocks a disk missed.
#[derive(Clone, Copy, PartialEq, Eq)]
pub struct StaleSpan {
    /// The guid of the disk.
    pub disk: u64,
    /// The first group that it missed.
    pub from: u64,
    /// The last one; 2^64-1 while the disk is away.
    pub to: u64,
}

/// The table's kind.
pub const STALE_SPANS_KIND: TableKind = TableKind {
    object_type: 204,
    rows: SHAPE,
};

impl StaleSpan {
    /// The words of the row.
    fn to_words(&self) -> [u64; 4]
        ensures { result ≡ span_words self.now }
    {
        [self.disk, self.from, self.to, 0]
    }

    /// The span that the words spell.
    fn from_words(words: [u64; 4]) -> Result<StaleSpan, Refusal>
        ensures found { IfOk result (λ span. (span.from ≤ span.to) × (words ≡ span_words span)) }
        ensures only { (span : StaleSpan) → span.from ≤ span.to → words ≡ span_words span
            → result ≡ Ok span }
        ensures refused { IfErr result (λ refusal. refusal ≡ Refusal.BadPointer) }
    {
        let span = StaleSpan {
            disk: words[0],
            from: words[1],
            to: words[2],
        };
        if words != span.to_words() || span.from > span.to {
            return Err(Refusal::BadPointer);
        }
        Ok(span)
    }
}

/// The span at the front of bytes, and the bytes after it.
fn first_span(bytes: &[u8]) -> Result<(StaleSpan, &[u8]), Refusal>
    ensures fits { IfOk result (λ found. FitsSpan found.0) }
    ensures found { IfOk result (λ found. bytes.now ≡ span_bytes found.0 ++ found.1.now) }
    ensures shorter { IfOk result (λ found. length found.1.now < length bytes.now) }
    ensures only { (span : StaleSpan) (rest : List ℕ) → FitsSpan span
        → bytes.now ≡ span_bytes span ++ rest
        → IsOkAnd result (λ found. (found.0 ≡ span) × (found.1.now ≡ rest)) }
    ensures refused { IfErr result (λ refusal. refusal ≡ Refusal.BadPointer) }
{
    let (words, rest) = first_words(bytes)?;
    let span = StaleSpan::from_words(words)?;
    Ok((span, rest))
}

/// A span for each disk that missed blocks: the disks' guids ascend, so each is there once.
#[derive(Drop)]
pub struct StaleSpans {
    rows: Vec<StaleSpan>,
}

impl Model for StaleSpans {
    ghost use Rattle.std.specs.Prelude.{List};
    ghost use Rattle.meta_objset.specs.declared.stale_spans.StaleSpan.{StaleSpan};
    ghost use Rattle.meta_objset.specs.StaleSpans.{AreStaleSpans};

    ghost Value = { List StaleSpan };

    ghost view = { λ spans. spans.rows.items };

    ghost invariant = { λ spans. AreStaleSpans spans.rows.items };
}

impl StaleSpans {
    /// No disk missed a block.
    pub fn new(alloc: Global) -> StaleSpans
        ensures { result ≡ [] }
    {
        StaleSpans {
            rows: Vec::new(alloc),
        }
    }

    /// The spans in the order of their disks.
    pub fn rows(&self) -> &[StaleSpan]
        ensures value { result.now ≡ self.now }
        ensures is { AreStaleSpans self.now }
    {
        let _ = &self.rows;
        self.rows.as_slice()
    }

    /// The span of a disk, if it has one.
    pub fn get(&self, disk: u64) -> Option<StaleSpan>
        ensures found { IfSome result (λ span. Contains self.now span × (span.disk ≡ disk)) }
        ensures none { result ≡ None → LacksDisk self.now disk }
    {
        let span = self.rows.iter().find(|span| span.disk == disk)?;
        Some(*span)
    }

    /// Gives a disk its span, in place of the one that it may have. Nothing changes on an error.
    pub fn set(&mut self, span: StaleSpan) -> Result<(), AllocError>
        requires { span.from ≤ span.to }
        ensures set { OnOk result (IsWithSpan self.old span self.new) }
        ensures order { AreStaleSpans self.new }
        ensures kept { IfErr result (λ _. self.new ≡ self.old) }
    {
        if let Some(at) = place_of(&self.rows, span.disk) {
            self.rows[at] = span;
            return Ok(());
        }
        let at = count_before(&self.rows, span.disk);
        self.rows.insert(at, span)?;
        Ok(())
    }

    /// Takes out the span of a disk, if it has one.
    pub fn remove(&mut self, disk: u64) -> Option<StaleSpan>
        ensures removed { IfSome result (λ span. Contains self.old span × (span.disk ≡ disk)
            × IsWithoutDisk self.old disk self.new) }
        ensures none { result ≡ None → LacksDisk self.old disk × (self.new ≡ self.old) }
        ensures order { AreStaleSpans self.new }
    {
        let at = place_of(&self.rows, disk)?;
        let span = self.rows.remove(at);
        Some(span)
    }

    /// The spans that the bytes of a table's rows spell.
    pub(crate) fn from_rows(alloc: Global, bytes: &[u8]) -> Result<StaleSpans, Refusal>
        ensures found { IfOk result (λ spans. AreStaleSpans spans
            × (bytes.now ≡ spans_bytes spans)) }
        ensures only { (spans : List StaleSpan) → AreStaleSpans spans
            → bytes.now ≡ spans_bytes spans
            → IfOk result (λ found. found ≡ spans) }
        ensures bad { IsErrOf result Refusal.BadPointer → (spans : List StaleSpan)
            → AreStaleSpans spans
            → bytes.now ≢ spans_bytes spans }
    {
        let mut rows = Vec::new(alloc);
        let mut rest = bytes;
        while !rest.is_empty() {
            let (span, after) = first_span(rest)?;
            if !is_behind(&span, &rows) {
                return Err(Refusal::BadPointer);
            }
            rows.push(span)?;
            rest = after;
        }
        Ok(StaleSpans { rows })
    }

    /// The spans that the bytes spell. `BadPointer` where they spell none: a disk is out of order or there twice, a span ends
    /// before it begins, a row's last word isn't zero, or the bytes are no such table.
    pub fn decode(alloc: Global, bytes: &[u8]) -> Result<StaleSpans, Refusal>
        // What is found is spelled so, each byte of it.
        ensures found { IfOk result (SpellsSpans bytes.now) }
        // What is spelled so is found, while there is memory.
        ensures only { (spans : List StaleSpan) → SpellsSpans bytes.now spans
            → IfOk result (λ found. found ≡ spans) }
        ensures bad { IsErrOf result Refusal.BadPointer → (spans : List StaleSpan)
            → ¬ SpellsSpans bytes.now spans }
    {
        let rows = object_table::decode(alloc, SHAPE, bytes)?;
        StaleSpans::from_rows(alloc, &rows)
    }

    /// The bytes of the rows, one after the other.
    fn to_rows(&self, alloc: Global) -> Result<Vec<u8>, AllocError>
        ensures { IfOk result (λ bytes. bytes.items ≡ spans_bytes self.now) }
    {
        let mut bytes = Vec::new(alloc);
        for span in self.rows.as_slice() {
            push_words(&mut bytes, &span.to_words())?;
        }
        Ok(bytes)
    }

    /// The change of an object set that makes the object of the spans: `read_stale_spans` finds them where its number is 3.
    /// `NoMemory` is its only error.
    pub fn creation(&self, alloc: Global) -> Result<Change, Refusal>
        requires { length self.now < 2 ^ 40 }
        ensures good { IfOk result IsGoodChange }
        ensures made { IfOk result (λ change. HasStaleSpans (after_change change None) self.now) }
        ensures refused { IfErr result (λ refusal. refusal ≡ Refusal.NoMemory) }
    {
        let _ = &self.rows;
        let rows = self.to_rows(alloc)?;
        object_table::creation(alloc, STALE_SPANS_KIND, &rows)
    }

    /// The change of an object set that writes the object of the spans anew. The object is there, with the spans' type and
    /// blocks of 8 sectors. `NoMemory` is the only error.
    pub fn replacement(&self, alloc: Global) -> Result<Change, Refusal>
        requires { length self.now < 2 ^ 40 }
        ensures good { IfOk result IsGoodChange }
        ensures may { IfOk result (λ change. (object : Object) → IsOfKind spans_kind object
            → MayChange change (Some object)) }
        ensures made { IfOk result (λ change. (object : Object) → IsOfKind spans_kind object
            → HasStaleSpans (after_change change (Some object)) self.now) }
        ensures refused { IfErr result (λ refusal. refusal ≡ Refusal.NoMemory) }
    {
        let _ = &self.rows;
        let rows = self.to_rows(alloc)?;
        object_table::replacement(alloc, STALE_SPANS_KIND, &rows)
    }

    /// The one spelling of the spans, in whole blocks.
    pub fn encode(&self, alloc: Global) -> Result<Vec<u8>, Refusal>
        requires { length self.now < 2 ^ 40 }
        ensures spells { IfOk result (λ bytes. SpellsSpans bytes.items self.now) }
        ensures refused { IfErr result (λ refusal. refusal ≡ Refusal.NoMemory) }
    {
        let _ = &self.rows;
        let rows = self.to_rows(alloc)?;
        object_table::encode(alloc, SHAPE, &rows)
    }
}

/// How many spans are of disks in front of that one.
fn count_before(spans: &[StaleSpan], disk: u64) -> usize
    ensures within { result ≤ length spans.now }
    ensures before { All (λ span. span.disk < disk) (take result spans.now) }
    ensures behind { (other : StaleSpan) → result < length spans.now
        → ¬ ((slice_index_or spans.now result other).disk < disk) }
{
    for (i, span) in spans.iter().enumerate() {
        if span.disk >= disk {
            return i;
        }
    }
    spans.len()
}

/// The place of the first span of a disk.
fn place_of(spans: &[StaleSpan], disk: u64) -> Option<usize>
    ensures { MatchOption result (LacksDisk spans.now disk) (λ at. (at < length spans.now)
        × ((other : StaleSpan) → (slice_index_or spans.now at other).disk ≡ disk)) }
{
    spans.iter().position(|span| span.disk == disk)
}

/// Whether the disk of a span stands behind those of the spans so far.
fn is_behind(span: &StaleSpan, spans: &[StaleSpan]) -> bool
    requires { AreStaleSpans spans.now }
    ensures { IsTrue result ↔ All (λ before. before.disk < span.now.disk) spans.now }
{
    match spans.last() {
        None => true,
        Some(last) => last.disk < span.disk,
    }
}
