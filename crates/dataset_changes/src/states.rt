//! What becomes of a record or a dead list.
use dead_list::DeadList;
use meta_objset::DatasetRecord;
use object_table::TableEnd;

/// What became of the record of an object.
#[derive(Drop)]
pub enum RecordState {
    /// It was read, and is as it was.
    Read(DatasetRecord),
    /// It is another now.
    Changed(DatasetRecord),
    /// Its object is made.
    Made(DatasetRecord),
    /// Its object goes.
    Gone,
}

/// What became of the dead list of an object.
#[derive(Drop)]
pub enum ListState {
    /// Blocks are added to it, of which the end alone was read.
    Added { end: TableEnd, blocks: DeadList },
    /// It was read whole, and is this one now.
    Whole(DeadList),
    /// Its object is made.
    Made(DeadList),
    /// Its object goes.
    Gone,
}
