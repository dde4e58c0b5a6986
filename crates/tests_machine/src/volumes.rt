//! An index of names, and the intake of a pool, which has one.
use crate::items::{create, name, run};
use crate::lines::{Bench, Call, wrong_lines};
use pool_intake::Intake;
use pool_model::VolumeKind;
use std::alloc::{AllocError, Global};
use std::test::Fail;
use txg_pipeline::Pipeline;
use volume_rules::{NameIndex, NamedShape, NewName, VolumeEntry, VolumeShape};

/// A volume of 8192 bytes in blocks of 512, which group 4 made.
pub(crate) const SHAPE: VolumeShape = VolumeShape {
    size: 8192,
    block_size: 512,
    group: 4,
    kind: VolumeKind::Volume,
};

/// Names in an index: `add NAME GROUP` adds a volume of that shape that a group made, and `find` has the size, the blocks and the
/// group of one. `rows` has them all, in the order of their names. `after GROUP` goes on with the index after a group with these
/// items. `against` has why volumes can't be made.
const NAMES: &[(&str, &str)] = &[
    (
        "new; add v 4; add w 5; find v; find w; find vw",
        "new; added; added; 8192 512 4 volume; 8192 512 5 volume; none",
    ),
    (
        "new; rows; add w 5; add v.a 6; add v 4; add v-z 7; rows; add a 8; after 9: hold 1, create 1 1 v1 1024 512; rows",
        "new; ; added; added; added; added;
            v 8192 512 4 volume, v-z 8192 512 7 volume, v.a 8192 512 6 volume, w 8192 512 5 volume;
            added; after;
            a 8192 512 8 volume, v 8192 512 4 volume, v-z 8192 512 7 volume, v.a 8192 512 6 volume,
            v1 1024 512 9 volume, w 8192 512 5 volume",
    ),
    // The second action for v is passed over.
    (
        "new; add u 4; find u; find v; find w; find x;
            after 5: hold 1, create 1 1 v 1024 512, create 1 2 w 2048 512, create 1 3 v 4096 512;
            find u; find v; find w; find x",
        "new; added; 8192 512 4 volume; none; none; none; after; 8192 512 4 volume;
            1024 512 5 volume; 2048 512 5 volume; none",
    ),
    (
        "new; add v 4; against: create 1 1 w 1024 512, create 1 1 W 1024 512, create 1 1 v 1024 512,
            create 1 1 w 1024 513, create 1 1 w 0 512",
        "new; added; None Some(BadName) Some(Exists) Some(Misaligned) Some(OutOfRange)",
    ),
];

/// An intake takes a group in.
const TAKEN_IN: &[(&str, &str)] = &[(
    "new; find v; hold 1; create 1 1 v 8192 512; create 1 2 u 512 512; rows; release 1; close; quiesce; sync;
            find v; commit; rows",
    "new; none; Held(4); Receipt(4); Receipt(4); u 512 512 4 volume, v 8192 512 4 volume; Released; Closed(4);
            Quiesced(4); begun; 8192 512 4 volume; committed 4; u 512 512 4 volume, v 8192 512 4 volume",
)];

fn shape_text(alloc: Global, shape: Option<VolumeShape>) -> Result<String, AllocError> {
    let Some(shape) = shape else {
        return String::from_str(alloc, "none");
    };
    let kind = if shape.kind == VolumeKind::Volume {
        "volume"
    } else {
        "snapshot"
    };
    let (size, block_size, group) = (shape.size, shape.block_size, shape.group);
    format!(in alloc; "{size} {block_size} {group} {kind}")
}

/// Each name and its shape, with commas between them.
fn rows_text(alloc: Global, rows: &[NamedShape]) -> Result<String, AllocError> {
    let mut text = String::new(alloc);
    for row in rows {
        let name = str::from_utf8(row.name.as_slice()).unwrap_or("?");
        let shape = shape_text(alloc, Some(row.shape))?;
        let comma = if text.is_empty() { "" } else { ", " };
        text.push_str(format!(in alloc; "{comma}{name} {shape}")?.as_str())?;
    }
    Ok(text)
}

fn add(index: &mut NameIndex, alloc: Global, call: &Call) -> Result<(), AllocError> {
    let name = name(alloc, call.word(1))?;
    let shape = VolumeShape {
        group: call.number(2),
        ..SHAPE
    };
    let entry = VolumeEntry {
        shape,
        origin: None,
    };
    index.reserve()?;
    index.add(NewName { name, entry });
    Ok(())
}

/// The index after a group with the items of a list.
fn after(index: &NameIndex, alloc: Global, call: &Call) -> Result<NameIndex, Fail> {
    let mut pipeline = Pipeline::new(alloc, 4);
    run(alloc, &mut pipeline, call)?;
    Ok(index.after_group(alloc, call.number(1), pipeline.open_items())?)
}

/// Why the changes of a list are refused.
fn against(index: &NameIndex, alloc: Global, call: &Call) -> Result<String, Fail> {
    let mut text = String::new(alloc);
    for call in &call.calls(alloc)? {
        let action = create(alloc, call)?;
        let cause = index.against(alloc, &action.change)?;
        text.push_str(format!(in alloc; "{cause:?} ")?.as_str())?;
    }
    Ok(text)
}

impl Bench for NameIndex {
    fn answer(&mut self, alloc: Global, call: &Call) -> Result<String, Fail> {
        let text = match call.word(0) {
            "find" => shape_text(alloc, self.find(&name(alloc, call.word(1))?)),
            "rows" => rows_text(alloc, &self.rows(alloc)?),
            "against" => return against(self, alloc, call),
            "add" => {
                add(self, alloc, call)?;
                String::from_str(alloc, "added")
            }
            "after" => {
                *self = after(self, alloc, call)?;
                String::from_str(alloc, "after")
            }
            _ => {
                *self = NameIndex::new(alloc);
                String::from_str(alloc, "new")
            }
        };
        Ok(text?)
    }
}

/// What comes of a call that no writer makes.
fn synced(intake: &mut Intake, alloc: Global, call: &Call) -> Result<String, Fail> {
    let text = match call.word(0) {
        "find" => shape_text(alloc, intake.find(&name(alloc, call.word(1))?)),
        "rows" => rows_text(alloc, &intake.rows(alloc)?),
        "sync" if intake.begin_sync().is_ok() => String::from_str(alloc, "begun"),
        "commit" => match intake.commit() {
            Ok(group) => format!(in alloc; "committed {group}"),
            Err(refusal) => format!(in alloc; "{refusal:?}"),
        },
        other => return Err(Fail::new(format_args!("{other} is not taken"))),
    };
    Ok(text?)
}

impl Bench for Intake {
    fn answer(&mut self, alloc: Global, call: &Call) -> Result<String, Fail> {
        let reply = match call.word(0) {
            "hold" => self.hold(call.writer()),
            "create" => self.act(alloc, create(alloc, call)?),
            "release" => self.release(call.writer()),
            "close" => self.close(),
            "quiesce" => self.quiesce(),
            "new" => {
                *self = Intake::new(alloc);
                return Ok(String::from_str(alloc, "new")?);
            }
            _ => return synced(self, alloc, call),
        };
        Ok(format!(in alloc; "{reply:?}")?)
    }
}

#[test]
fn volumes_have_names(rt: HostRuntime) -> Result<(), Fail> {
    let alloc = rt.alloc();
    let wrong = wrong_lines(&rt, alloc, &mut NameIndex::new(alloc), NAMES)?;
    assert!(rt; wrong.is_empty(), "{wrong}");
    Ok(())
}

#[test]
fn an_intake_takes_a_group_in(rt: HostRuntime) -> Result<(), Fail> {
    let alloc = rt.alloc();
    let wrong = wrong_lines(&rt, alloc, &mut Intake::new(alloc), TAKEN_IN)?;
    assert!(rt; wrong.is_empty(), "{wrong}");
    Ok(())
}
