//! What follows from the definitions, as functions with no body.
ghost use Rattle.dataset_chains.specs.Laws.{ChainsStay, DatasetsHaveOneRecord};

/// Datasets spell their pool where more blocks are known, and in the next group. Once the changes that a group makes of the meta object set are
/// made, its objects spell the pool.
pub fn chains_stay()
    ensures { ChainsStay }
{}

/// A dataset has one record.
pub fn datasets_have_one_record()
    ensures { DatasetsHaveOneRecord }
{}
