//! Laws of space maps: what leaves them those of a pool.
ghost use Rattle.std.specs.Prelude.{◌≡◌, ◌≢◌, ◌<◌, ◌++◌, ℕ, List, [], Option, Some, All, Contains, length};
ghost use Rattle.block_pointer.specs.declared.block.Block.{Block};
ghost use Rattle.block_pointer.specs.Copies.{dvas};
ghost use Rattle.block_store.specs.Blocks.{Contents, AreDistinct, AreStored};
ghost use Rattle.block_store.specs.Opened.{Fills};
ghost use Rattle.block_store.specs.Places.{AreEmpty, ArePlacesIn, HaveMarks, Marks, filled, planned, shapes_of};
ghost use Rattle.block_store.specs.Plans.{Plans};
ghost use Rattle.block_store.specs.Releases.{AreAllInUse, AreReleased, AreSettledInSome, copies_of_all};
ghost use Rattle.block_store.specs.Spaces.{IsSpace, VdevSpace};
ghost use Rattle.block_store.specs.Steps.{HavePlaced, Placed};
ghost use Rattle.block_store.specs.Store.{Store};
ghost use Rattle.meta_objset.specs.Reading.{HasSpaceMaps};
ghost use Rattle.meta_objset.specs.declared.space_maps.MetaslabMap.{MetaslabMap};
ghost use Rattle.objset.specs.Changes.{changed};
ghost use Rattle.objset.specs.Objects.{Object};
ghost use Rattle.objset.specs.declared.changes.ObjectChange.{ObjectChange};
ghost use Rattle.pool_maps.specs.Beside.{AreSameBefore, LieBeforeMeta, LieInMeta};
ghost use Rattle.pool_maps.specs.Loads.{AreFreeBefore, AreLoadedAs, AreReadMaps, AreSetsOf, HaveMaps};
ghost use Rattle.pool_maps.specs.Plans.{MapAnew};
ghost use Rattle.pool_maps.specs.Reached.{AreMapsFor, AreThere, UseJust};
ghost use Rattle.pool_maps.specs.Maps.{AreMaps, AreMapsOf, AreRowsOf, AreShortMaps};
ghost use Rattle.pool_maps.specs.declared.reading.FreeMetaslab.{FreeMetaslab};

/// Maps leave free what is unused by other marks too, where each vdev has the same of them: so it is as blocks are read and planned,
/// and as what is planned is kept.
pub fn maps_follow_marks()
    ensures { (objects : ℕ → Option Object) (spaces after : List VdevSpace) (marks later : Marks)
        (maps : List MetaslabMap) → shapes_of after ≡ shapes_of spaces
        → HaveMarks spaces marks after later → AreMaps objects spaces marks maps
        → AreMaps objects after later maps }
{}

/// What is due becomes free as a plan begins, in some metaslabs or in all: that changes nothing of what is unused.
pub fn maps_stay_as_plans_begin()
    ensures { (objects : ℕ → Option Object) (spaces after : List VdevSpace) (group : ℕ)
        (maps : List MetaslabMap) → shapes_of after ≡ shapes_of spaces
        → AreSettledInSome group spaces after → AreMaps objects spaces filled maps
        → AreMaps objects after filled maps }
{}

/// A store without blocks has no maps.
pub fn new_pools_have_no_maps()
    ensures { (objects : ℕ → Option Object) (spaces : List VdevSpace) → AreEmpty spaces
        → HasSpaceMaps (objects 4) [] → AreMapsOf objects spaces filled
        × AreMapsOf objects spaces planned }
{}

/// Objects of another type have no maps.
pub fn other_objects_have_no_maps()
    ensures { (objects : ℕ → Option Object) (spaces : List VdevSpace) (maps : List MetaslabMap)
        (number : ℕ) (there : Object) → AreRowsOf spaces maps → AreShortMaps objects spaces maps
        → objects number ≡ Some there → there.object_type ≢ 8
        → All (λ map. map.object ≢ number) maps }
{}

/// Maps that haven't grown long are maps of their metaslabs: so nothing but memory and disks keeps them from being loaded.
pub fn short_maps_can_be_loaded()
    ensures { (objects : ℕ → Option Object) (spaces : List VdevSpace) (maps : List MetaslabMap)
        → AreShortMaps objects spaces maps → HaveMaps objects spaces maps }
{}

/// What is planned and given back in the meta regions, beside the blocks that were told, changes nothing of the maps' worth: so it is with
/// the blocks of the meta object set itself, which has the maps.
pub fn maps_are_those_of_the_whole_plan()
    ensures { (objects : ℕ → Option Object) (spaces now after : List VdevSpace)
        (front gone back : List Block) (group : ℕ) (changes : List ObjectChange)
        → MapAnew objects spaces gone changes → AreSameBefore spaces now
        → LieInMeta spaces front → LieBeforeMeta spaces gone → LieInMeta spaces back
        → AreReleased now (copies_of_all (front ++ (gone ++ back))) group after
        → AreMapsOf (changed changes objects) after planned × AreThere after planned }
{}

/// Blocks of the meta object set, which have three copies, take no place before the meta regions.
pub fn meta_blocks_leave_the_others()
    ensures { (spaces after : List VdevSpace) (placed : List Placed)
        → All (λ block. block.copies ≡ 3) placed → HavePlaced spaces placed after
        → AreSameBefore spaces after }
{}

/// Blocks of three copies lie in the meta regions, and all others before them.
pub fn blocks_lie_by_their_copies()
    ensures meta { (spaces : List VdevSpace) (blocks : List Block)
        → ((block : Block) → Contains blocks block
        → ArePlacesIn spaces block.property.sectors (dvas block.copies))
        → All (λ block. length (dvas block.copies) ≡ 3) blocks → LieInMeta spaces blocks }
    ensures others { (spaces : List VdevSpace) (blocks : List Block)
        → ((block : Block) → Contains blocks block
        → ArePlacesIn spaces block.property.sectors (dvas block.copies))
        → All (λ block. length (dvas block.copies) ≢ 3) blocks → LieBeforeMeta spaces blocks }
{}

/// Blocks that are stored, each of them once, and in use can be given back, where the metaslabs are as large as their vdevs say.
pub fn stored_blocks_can_be_given_back()
    ensures { (store : Store) (stored later : Contents) (blocks : List Block) (group : ℕ)
        → Plans store stored later → AreStored stored blocks → AreDistinct blocks
        → AreAllInUse store.spaces blocks → All IsSpace store.spaces
        → (after : List VdevSpace) × AreReleased store.spaces (copies_of_all blocks) group after }
{}

/// Where just the sectors of these blocks are in use, their maps are those of what is in use.
pub fn maps_for_blocks_are_of_their_marks()
    ensures { (objects : ℕ → Option Object) (spaces : List VdevSpace) (marks : Marks)
        (blocks : List Block) → AreMapsFor objects spaces blocks → UseJust spaces marks blocks
        → AreMapsOf objects spaces marks }
{}

/// And the maps of what is in use are theirs.
pub fn maps_of_marks_are_for_their_blocks()
    ensures { (objects : ℕ → Option Object) (spaces : List VdevSpace) (marks : Marks)
        (blocks : List Block) → AreMapsOf objects spaces marks → AreThere spaces marks
        → UseJust spaces marks blocks → AreMapsFor objects spaces blocks }
{}

/// Maps that call allocated what blocks take do so whatever is in use, as long as the vdevs are the same.
pub fn maps_for_blocks_stay()
    ensures { (objects : ℕ → Option Object) (spaces after : List VdevSpace)
        (blocks : List Block) → shapes_of after ≡ shapes_of spaces
        → AreMapsFor objects spaces blocks → AreMapsFor objects after blocks }
{}

/// A store without blocks is free before its meta regions.
pub fn empty_stores_are_free_before()
    ensures { (spaces : List VdevSpace) → AreEmpty spaces → AreFreeBefore spaces }
{}

/// Maps that were read are those of other vdevs of the same shapes too.
pub fn read_maps_stay()
    ensures read { (objects : ℕ → Option Object) (spaces after : List VdevSpace)
        (maps : List FreeMetaslab) → shapes_of after ≡ shapes_of spaces
        → AreReadMaps objects spaces maps → AreReadMaps objects after maps }
    ensures sets { (spaces after : List VdevSpace) (maps : List FreeMetaslab)
        → shapes_of after ≡ shapes_of spaces → AreSetsOf spaces maps → AreSetsOf after maps }
{}

/// Where the maps of what blocks take are loaded in a store without blocks, and those of the blocks that lie in the meta regions are
/// taken in behind that, just the sectors of the blocks are in use.
pub fn loaded_maps_are_of_their_blocks()
    ensures { (objects : ℕ → Option Object) (spaces loaded now : List VdevSpace)
        (meta others : List Block) (maps : List FreeMetaslab) → AreEmpty spaces
        → AreMapsFor objects spaces (meta ++ others) → AreReadMaps objects spaces maps
        → AreLoadedAs spaces maps loaded → LieBeforeMeta spaces others
        → ((block : Block) → Contains (meta ++ others) block → (0 < block.property.sectors)
        × ArePlacesIn spaces block.property.sectors (dvas block.copies))
        → shapes_of now ≡ shapes_of loaded → Fills loaded filled meta now
        → Fills loaded planned meta now
        → UseJust now filled (meta ++ others) × UseJust now planned (meta ++ others) }
{}
