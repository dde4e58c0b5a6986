//! A store, and the volumes and roots that calls put into it.
use crate::groups::{accept, first_root, one_span, planned};
use crate::lines::Call;
use crate::roots::{dataset_text, ended, has_left, kept, range_text, reached};
use crate::sets::{EMPTY, object_made, with};
use crate::stores::{Store, new_store, store_plan};
use crate::texts::rows_text;
use crate::volumes::{bytes_of, rewritten};
use block_pointer::Copies;
use dataset_snapshots::{KeptDirectory, NextRoot, directory_under};
use dnode::ObjectSet;
use meta_objset::{DatasetRecord, Directory};
use objset::plan_set;
use pool_model::Name;
use std::alloc::Global;
use std::mem;
use std::test::Fail;
use txg_pipeline::Pipeline;
use volume::{GroupWrites, Rewritten, VolumeSet};

/// What calls have put into a store.
#[derive(Drop)]
struct Made {
    /// What the open group has accepted.
    group: Pipeline,
    volumes: Vec<VolumeSet>,
    /// How many blocks gave way as the last volume was written.
    gone: usize,
    /// The bytes of a meta object set that is made by hand, and the last record in one.
    set: [u8; 1024],
    record: Option<DatasetRecord>,
    roots: Vec<NextRoot>,
}

/// A store, until its disks are read without it, and what is in it.
#[derive(Drop)]
pub(crate) struct Pools {
    store: Option<Store>,
    made: Made,
}

impl Made {
    /// Makes a volume of zeros in group 1, in blocks of 512 bytes, has one more that it becomes, or tells its bytes.
    fn volume(&mut self, store: &mut Store, alloc: Global, call: &Call) -> Result<String, Fail> {
        if call.name == "make" {
            store.drop_plan(1);
            let volume = if call.number(0) == 300 {
                VolumeSet::create(store, alloc, 153_600, 512, 1)?
            } else {
                VolumeSet::create(store, alloc, 2048, 512, 1)?
            };
            store_plan(store);
            self.volumes.push(volume)?;
            return Ok(String::new(alloc));
        }
        let Some(volume) = self.volumes.get(call.number(0) as usize) else {
            return Err(Fail::new("no such volume"));
        };
        let volume = *volume;
        if call.name == "bytes" {
            return bytes_of(&volume, store, alloc, call);
        }
        if call.name == "resize" {
            let other = VolumeSet::new(153_600, 1024, volume.block());
            self.volumes.push(other)?;
            return Ok(String::new(alloc));
        }
        let group = mem::replace(&mut self.group, Pipeline::new(alloc, 3));
        let name = Name::new(Vec::from_slice(alloc, call.names.as_bytes())?);
        let (name, items) = (&name, group.open_items());
        match rewritten(&volume, store, alloc, call, &GroupWrites { name, items }) {
            Ok(Rewritten { volume, replaced }) => {
                self.gone = replaced.len();
                self.volumes.push(volume)?;
                Ok(String::new(alloc))
            }
            Err(refusal) => Ok(format!(in alloc; "{refusal:?}")?),
        }
    }

    /// Has one object more in the set that is made by hand: its number, and the group that it is made in.
    fn add(&mut self, store: &mut Store, alloc: Global, call: &Call) -> Result<(), Fail> {
        let (number, birth) = (call.number(0).clamp(1, 1 << 39), call.number(1).max(1));
        let change = object_made(store, alloc, call, &mut self.record)?;
        let Ok(set) = ObjectSet::decode(&self.set) else {
            return Err(Fail::new("no set"));
        };
        let set = with(&set, store, alloc, number, change, birth)?;
        self.set = set.encode();
        Ok(())
    }

    /// Plans a root, and stores it: that of the set that is made by hand, born in group 3, or the first one of a pool, after what the
    /// open group has accepted.
    fn begin(&mut self, store: &mut Store, alloc: Global, call: &Call) -> Result<(), Fail> {
        if call.name == "first" {
            let group = mem::replace(&mut self.group, Pipeline::new(alloc, 3));
            let first = first_root(store, alloc, &group)?;
            self.roots.push(first)?;
            return Ok(());
        }
        let Ok(set) = ObjectSet::decode(&self.set) else {
            return Err(Fail::new("no set"));
        };
        store.drop_plan(3);
        let root = plan_set(&set, store, alloc, 3)?;
        store_plan(store);
        self.roots.push(NextRoot {
            root,
            replaced: Vec::new(alloc),
            directory: KeptDirectory::new(alloc, Directory::new(alloc)),
        })?;
        Ok(())
    }

    /// Has the directory that is read under a root in the place of the one that is kept, but for a `plan`. Plans the root behind it, but
    /// for `under`, after what the open group has accepted, by that directory, and stores it; `mark` brings a stale span. It tells why it
    /// can't be planned, or nothing.
    fn next(&mut self, store: &mut Store, alloc: Global, call: &Call) -> Result<String, Fail> {
        let Some(at) = self.roots.get_mut(call.number(0) as usize) else {
            return Err(Fail::new("no such root"));
        };
        let root = at.root;
        if call.name != "plan" {
            let directory = directory_under(&root, store, alloc, root.birth, &[])?;
            at.directory = KeptDirectory::new(alloc, directory);
        }
        if call.name == "under" {
            return Ok(String::new(alloc));
        }
        let group = mem::replace(&mut self.group, Pipeline::new(alloc, 3));
        let done = if call.name == "mark" {
            let spans = one_span(alloc, call.number(1), call.number(2), call.number(3))?;
            planned(&root, store, alloc, &group, &at.directory, Some(spans))
        } else {
            planned(&root, store, alloc, &group, &at.directory, None)
        };
        match done {
            Ok(after) => {
                self.roots.push(after)?;
                Ok(String::new(alloc))
            }
            Err(refusal) => Ok(format!(in alloc; "{refusal:?}")?),
        }
    }

    /// Tells what is under a root.
    fn root(&self, store: &mut Store, alloc: Global, call: &Call) -> Result<String, Fail> {
        let (roots, second) = (&self.roots, call.number(1));
        let Some(at) = roots.get(call.number(0) as usize) else {
            return Err(Fail::new(format_args!("no call {}", call.name)));
        };
        let text = match call.name {
            "birth" => format!(in alloc; "{}", at.root.birth),
            "count" => format!(in alloc; "{}", at.directory.rows().len()),
            "rows" => rows_text(alloc, at.directory.rows()),
            "data" => {
                let blocks = at.replaced.iter().filter(|block| {
                    matches!(block.copies, Copies::One(_)) && block.birth == second
                });
                format!(in alloc; "{}", blocks.count())
            }
            "left" => match roots.get(second as usize) {
                Some(next) => return has_left(&at.root, next, store, alloc),
                None => return Err(Fail::new("no such root")),
            },
            "reach" => return reached(&at.root, store, alloc, second),
            "object" | "object_in" | "size" | "there" | "same" => {
                return dataset_text(at, store, alloc, call, self.record);
            }
            "read" | "read_in" => return range_text(at, store, alloc, call),
            "kept" | "stale" | "refused" => return kept(&at.root, store, alloc, call),
            _ => return Err(Fail::new(format_args!("no call {}", call.name))),
        };
        Ok(text?)
    }
}

impl Pools {
    /// Over a new store with nothing in it.
    pub(crate) fn new(alloc: Global) -> Result<Pools, Fail> {
        let store = Some(new_store(alloc, false)?);
        let made = Made {
            group: Pipeline::new(alloc, 3),
            volumes: Vec::new(alloc),
            gone: 0,
            set: EMPTY.encode(),
            record: None,
            roots: Vec::new(alloc),
        };
        Ok(Pools { store, made })
    }

    /// What comes of a call, or an error where there is none such.
    pub(crate) fn answer(&mut self, alloc: Global, call: &Call) -> Result<String, Fail> {
        if matches!(call.name, "reads" | "open" | "open_maps")
            && let Some(store) = self.store.take()
        {
            return ended(&self.made.roots, store, alloc, call);
        }
        let Some(store) = &mut self.store else {
            return Err(Fail::new("no store"));
        };
        let made = &mut self.made;
        match call.name {
            "lossy" => *store = new_store(alloc, true)?,
            "flush" => {
                let disk = call.number(0) as usize;
                if disk < store.disk_count() {
                    let _ = store.flush(disk);
                }
            }
            "gone" => return Ok(format!(in alloc; "{}", made.gone)?),
            "make" | "placed" | "written" | "resize" | "bytes" => {
                return made.volume(store, alloc, call);
            }
            "create" | "write" | "snapshot" | "destroy" | "many" => {
                accept(&mut made.group, alloc, call)?;
            }
            "record" | "space" | "maps" | "spans" | "names" => made.add(store, alloc, call)?,
            "first" | "root" => made.begin(store, alloc, call)?,
            "under" | "next" | "mark" | "plan" => return made.next(store, alloc, call),
            _ => return made.root(store, alloc, call),
        }
        Ok(String::new(alloc))
    }
}
