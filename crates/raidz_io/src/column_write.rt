//! The write of one column of a block.
ghost use Rattle.std.specs.Prelude.{◌≡◌, ◌≤◌, ◌<◌, ◌+◌, ◌∷◌, length, sum, slice_index, slice_range, IfOk, IfSome};
ghost use Rattle.raidz_parity.specs.Layout.{columns_of};
ghost use Rattle.raidz_parity.specs.Parity.{row_of};
ghost use Rattle.model_disk.specs.Call.{write_call};
ghost use Rattle.model_disk.specs.Joint.{bytes_of, on};
ghost use Rattle.raidz_io.specs.Writes.{IsRow};

use crate::places::offset_of;
use crate::vdev::Vdev;
use arrayvec::ArrayVec;
use model_disk::{Disk, DiskArray, DiskError};
use raidz_map::Column;
use raidz_parity::fill_row;
use std::alloc::{AllocError, Global};
use std::marker::Model;
use std::sync::Arc;

/// A part of a block: the bytes of a data column.
#[derive(Drop)]
pub(crate) struct BlockPart {
    block: Arc<Vec<u8>, Global>,
    from: usize,
    to: usize,
}

impl Model for BlockPart {
    ghost use Rattle.std.specs.Prelude.{ℕ, List, ◌≤◌, length, slice_range};

    ghost Value = { List ℕ };

    ghost view = { λ p. slice_range p.block.value.items p.from p.to };

    ghost invariant = { λ p. (p.from ≤ p.to) × (p.to ≤ length p.block.value.items) };
}

/// A parity of a block, and room for it. It is made when its bytes are asked for, or elsewhere.
#[derive(Drop)]
pub(crate) struct ParityRow {
    block: Arc<Vec<u8>, Global>,
    lengths: ArrayVec<usize, 32>,
    row: u8,
    room: Vec<u8>,
    is_made: bool,
}

impl Model for ParityRow {
    ghost use Rattle.std.specs.Prelude.{ℕ, List, length};
    ghost use Rattle.raidz_parity.specs.Layout.{columns_of};
    ghost use Rattle.raidz_parity.specs.Parity.{row_of};
    ghost use Rattle.raidz_io.specs.Writes.{IsRow};

    ghost Value = { List ℕ };

    ghost view = { λ r. row_of r.row (columns_of r.lengths.items r.block.value.items)
        (length r.room.items) };

    ghost invariant = { λ r.
        IsRow r.row r.lengths.items r.block.value.items r.room.items r.is_made };
}

impl BlockPart {
    fn bytes(&self) -> &[u8]
        ensures { result.now ≡ self.now }
    {
        &self.block.as_ref().as_slice()[self.from..self.to]
    }
}

impl ParityRow {
    /// A row that is still to be made, of so many bytes.
    fn new(
        alloc: Global,
        row: u8,
        lengths: &[usize],
        block: &Arc<Vec<u8>, Global>,
        size: usize,
    ) -> Result<Self, AllocError>
        requires row { row ≤ 1 }
        requires few { length lengths.now ≤ 32 }
        requires fits { sum lengths.now ≤ length block.now.value.items }
        ensures { IfOk result (λ made.
            made ≡ row_of row (columns_of lengths.now block.now.value.items) size) }
    {
        Ok(ParityRow {
            block: Arc::try_clone(block)?,
            lengths: copy_of(lengths),
            row,
            room: vec![in alloc; 0; size]?,
            is_made: false,
        })
    }

    /// Makes its bytes, where they are not made.
    fn make(&mut self)
        ensures { self.new ≡ self.old }
    {
        let lengths = self.lengths.as_slice();
        let block = self.block.as_ref().as_slice();
        fill_unmade(
            self.is_made,
            self.row,
            self.room.as_mut_slice(),
            lengths,
            block,
        );
        self.is_made = true;
    }

    /// Writes it, and makes its bytes before, where they are not made.
    fn write_on<D: Disk + Drop>(
        &mut self,
        disks: &mut DiskArray<D>,
        disk: usize,
        offset: u64,
    ) -> Result<(), DiskError>
        requires there { disk < length disks.old.starts }
        requires within { offset + length self.old ≤ length (bytes_of disks.old.starts disk) }
        ensures kept { self.new ≡ self.old }
        ensures starts { disks.new.starts ≡ disks.old.starts }
        ensures calls { disks.new.calls
            ≡ on disk (write_call result offset self.old) ∷ disks.old.calls }
    {
        let lengths = self.lengths.as_slice();
        let block = self.block.as_ref().as_slice();
        fill_unmade(
            self.is_made,
            self.row,
            self.room.as_mut_slice(),
            lengths,
            block,
        );
        self.is_made = true;
        disks.write_at(disk, offset, self.room.as_slice())
    }

    /// Its bytes, made anew.
    fn bytes_anew(&self, alloc: Global) -> Result<Vec<u8>, AllocError>
        ensures { IfOk result (λ bytes. bytes.items ≡ self.now) }
    {
        let mut bytes = vec![in alloc; 0; self.room.len()]?;
        let lengths = self.lengths.as_slice();
        let block = self.block.as_ref().as_slice();
        fill_row(self.row, bytes.as_mut_slice(), lengths, block);
        Ok(bytes)
    }

    /// Takes its bytes, which were made elsewhere.
    fn give(&mut self, bytes: Vec<u8>)
        requires { bytes.items ≡ self.old }
        ensures { self.new ≡ self.old }
    {
        self.room = bytes;
        self.is_made = true;
    }
}

/// Makes a row in its room, where it is not made.
fn fill_unmade(is_made: bool, row: u8, room: &mut [u8], lengths: &[usize], block: &[u8])
    requires { IsRow row lengths.now block.now room.old is_made }
    ensures { room.new ≡ row_of row (columns_of lengths.now block.now) (length room.old) }
{
    if is_made {
        return;
    }
    fill_row(row, room, lengths, block);
}

/// The same lengths.
fn copy_of(lengths: &[usize]) -> ArrayVec<usize, 32>
    requires { length lengths.now ≤ 32 }
    ensures { result.items ≡ lengths.now }
{
    let mut copy = ArrayVec::new();
    for length in lengths {
        copy.push(*length);
    }
    copy
}

/// The bytes of a column: they are in the block, or a parity of it.
#[derive(Drop)]
enum ColumnBytes {
    Part(BlockPart),
    Row(ParityRow),
}

/// Bytes that are to be written on a disk, from this byte of it on: a column of a block. The bytes of a data column are in the
/// block, which the writes of its copies share. Those of a parity may still have to be made, which nobody sees.
#[derive(Drop)]
pub struct ColumnWrite {
    disk: usize,
    offset: u64,
    bytes: ColumnBytes,
}

impl Model for ColumnWrite {
    ghost use Rattle.raidz_io.specs.Writes as writes;
    ghost use Rattle.raidz_io.specs.Holds.{bytes_of};

    ghost Value = { writes.ColumnWrite };

    ghost view = { λ w. record { disk = w.disk; offset = w.offset; bytes = bytes_of w.bytes } };
}

impl ColumnWrite {
    ghost use Rattle.raidz_io.specs.Places.{IsNamed};
    ghost use Rattle.raidz_io.specs.Stands.{IsWithin, IsWriteOf};

    /// The number of the disk.
    pub fn disk(&self) -> usize
        ensures { result ≡ self.now.disk }
    {
        self.disk
    }

    /// The byte of the disk from which on they are written.
    pub fn offset(&self) -> u64
        ensures { result ≡ self.now.offset }
    {
        self.offset
    }

    /// Makes the write, and its bytes before, where they are not made. It takes no memory.
    pub fn write_on<D: Disk + Drop>(&mut self, disks: &mut DiskArray<D>) -> Result<(), DiskError>
        requires { IsWithin disks.old.starts self.old }
        ensures kept { self.new ≡ self.old }
        ensures starts { disks.new.starts ≡ disks.old.starts }
        ensures calls { disks.new.calls ≡ on self.old.disk
            (write_call result self.old.offset self.old.bytes) ∷ disks.old.calls }
    {
        match &mut self.bytes {
            ColumnBytes::Part(part) => disks.write_at(self.disk, self.offset, part.bytes()),
            ColumnBytes::Row(row) => row.write_on(disks, self.disk, self.offset),
        }
    }

    /// Makes the bytes, where they are not made. It takes no memory.
    pub fn make(&mut self)
        ensures { self.new ≡ self.old }
    {
        if let ColumnBytes::Row(row) = &mut self.bytes {
            row.make();
        }
    }

    /// Which parity of its block it is, if its bytes are still to be made.
    pub fn unmade_row(&self) -> Option<u8>
        ensures { IfSome result (λ row. row ≤ 1) }
    {
        match &self.bytes {
            ColumnBytes::Part(_) => None,
            ColumnBytes::Row(row) => {
                if row.is_made {
                    return None;
                }
                Some(row.row)
            }
        }
    }

    /// The bytes of a parity, made anew; those of a data column are there.
    pub fn parity(&self, alloc: Global) -> Result<Option<Vec<u8>>, AllocError>
        ensures { IfOk result (λ made. IfSome made (λ bytes. bytes.items ≡ self.now.bytes)) }
    {
        match &self.bytes {
            ColumnBytes::Part(_) => Ok(None),
            ColumnBytes::Row(row) => {
                let bytes = row.bytes_anew(alloc)?;
                Ok(Some(bytes))
            }
        }
    }

    /// Takes the bytes, which were made elsewhere.
    pub fn give(&mut self, bytes: Vec<u8>)
        requires { bytes.items ≡ self.old.bytes }
        ensures { self.new ≡ self.old }
    {
        if let ColumnBytes::Row(row) = &mut self.bytes {
            row.give(bytes);
        }
    }

    /// The write of a part of a block to a data column's place.
    pub(crate) fn part(
        vdev: Vdev,
        column: Column,
        block: &Arc<Vec<u8>, Global>,
        from: usize,
        to: usize,
    ) -> Result<Self, AllocError>
        requires named { IsNamed vdev column }
        requires order { from ≤ to }
        requires within { to ≤ length block.now.value.items }
        ensures { IfOk result (λ write.
            IsWriteOf vdev column (slice_range block.now.value.items from to) write) }
    {
        let block = Arc::try_clone(block)?;
        Ok(ColumnWrite {
            disk: vdev.disk_of(column),
            offset: offset_of(column),
            bytes: ColumnBytes::Part(BlockPart { block, from, to }),
        })
    }

    /// The write of a parity of a block, which is still to be made, to its place. The data columns have these lengths.
    pub(crate) fn parity_row(
        alloc: Global,
        vdev: Vdev,
        column: Column,
        row: u8,
        lengths: &[usize],
        block: &Arc<Vec<u8>, Global>,
    ) -> Result<Self, AllocError>
        requires named { IsNamed vdev column }
        requires row { row ≤ 1 }
        requires some { 0 < length lengths.now }
        requires few { length lengths.now ≤ 32 }
        requires fits { sum lengths.now ≤ length block.now.value.items }
        ensures { IfOk result (λ write. IsWriteOf vdev column
            (row_of row (columns_of lengths.now block.now.value.items) (slice_index lengths.now 0))
            write) }
    {
        let row = ParityRow::new(alloc, row, lengths, block, lengths[0])?;
        Ok(ColumnWrite {
            disk: vdev.disk_of(column),
            offset: offset_of(column),
            bytes: ColumnBytes::Row(row),
        })
    }
}
