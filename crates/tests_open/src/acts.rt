//! What is done to disks in memory, and to the pool on them, a call at a time.
use crate::cases::{EXPORTED, FAILING, FOUND, OPENED, ROOTED, SPOILT};
use crate::lines::Call;
use crate::pools::{DISK_BYTES, blocks_of, fill, make, sync, write};
use crate::roots::{guids, rooted};
use crate::shelves::{CLAIM_AT, GUID_AT, LABELS, Shelf, TestDisk, spoil};
use model_disk::Member;
use pool_open::{NotExported, NotOpened, OpenedFrom, OpenedPool, export, find, into_disks, open};
use std::alloc::Global;
use std::mem;
use std::test::Fail;

type Pool = OpenedPool<Member<TestDisk>>;

/// The disks at hand, the pool that is open, and what it was found as.
#[derive(Drop)]
struct Acts {
    shelf: Shelf,
    pool: Option<Pool>,
    from: Option<OpenedFrom<TestDisk>>,
}

/// What comes of a call on a pool that stays open.
fn act(pool: &mut Pool, alloc: Global, call: &Call) -> Result<String, Fail> {
    let core = &mut pool.core;
    let text = match (call.name, call.numbers.as_slice()) {
        ("fill", []) => format!(in alloc; "{:?}", fill(alloc, core)?),
        ("write", [number, byte]) => {
            write(alloc, core, *number, (*byte).min(255) as u8)?;
            Ok(String::new(alloc))
        }
        ("sync", []) => format!(in alloc; "{:?}", sync(alloc, core)?),
        ("read", []) => format!(in alloc; "{:?}", blocks_of(alloc, core)?),
        ("out", []) => format!(in alloc; "{:?}", core.marks(alloc)?),
        ("config", []) => format!(in alloc; "{:?}", guids(core.config())),
        _ => return Err(Fail::new(format_args!("no call {}", call.name))),
    };
    Ok(text?)
}

impl Acts {
    /// Makes a pool of this guid on the last three disks at hand.
    fn make_pool(&mut self, alloc: Global, guid: u64) -> Result<String, Fail> {
        let first = self.shelf.images.len().saturating_sub(3);
        let disks = self.shelf.hand_in(alloc, first, "")?;
        let pool = match make(alloc, disks, guid)? {
            Ok(pool) => pool,
            Err((refusal, disks)) => {
                self.shelf.keep(disks)?;
                return Ok(format!(in alloc; "{refusal:?}")?);
            }
        };
        let (group, claim) = (pool.uberblock.group, pool.uberblock.claim);
        self.pool = Some(pool);
        self.from = None;
        Ok(format!(in alloc; "group {group} claim {claim}")?)
    }

    /// Opens a pool so many groups back on the disks at hand, which fail as the words tell.
    fn open_pool(&mut self, alloc: Global, rewind: u64, faults: &str) -> Result<String, Fail> {
        let disks = self.shelf.hand_in(alloc, 0, faults)?;
        let (pool, from) = match open(alloc, disks, rewind.min(2)) {
            Ok(opened) => opened,
            Err(NotOpened::NotFound { refusal, disks }) => {
                self.shelf.keep(disks)?;
                return Ok(format!(in alloc; "not found: {refusal:?}")?);
            }
            Err(NotOpened::Refused { refusal, disks }) => {
                self.shelf.keep(disks)?;
                return Ok(format!(in alloc; "refused: {refusal:?}")?);
            }
        };
        let (group, claim) = (pool.uberblock.group, pool.uberblock.claim);
        self.pool = Some(pool);
        self.from = Some(from);
        Ok(format!(in alloc; "group {group} claim {claim}")?)
    }

    /// Finds a pool on the disks at hand: the guids that its disks have, how many are absent, and whether all else is as it should be.
    fn find_pool(&mut self, alloc: Global, faults: &str) -> Result<String, Fail> {
        let disks = self.shelf.hand_in(alloc, 0, faults)?;
        let pool = match find(alloc, disks, 0) {
            Ok(pool) => pool,
            Err((refusal, disks)) => {
                self.shelf.keep(disks)?;
                return Ok(format!(in alloc; "{refusal:?}")?);
            }
        };
        let absent = pool.out.iter().filter(|it| **it).count();
        let is_whole = pool.out.len() == 3
            && pool.shapes.len() == 1
            && pool.taken.group == 3
            && pool.taken == pool.highest;
        let mut guids = Vec::new(alloc);
        'members: for member in pool.disks {
            guids.push(match member.into_disk() {
                Some(disk) => disk.into_inner().bytes().get(GUID_AT).copied(),
                None => None,
            })?;
        }
        Ok(format!(in alloc; "{guids:?} {absent} absent, whole: {is_whole}")?)
    }

    /// What comes of a call that ends the pool, unless an export is refused. Its disks are at hand then.
    fn end(&mut self, alloc: Global, call: &Call) -> Result<String, Fail> {
        let Some(OpenedPool { core, uberblock }) = self.pool.take() else {
            return Err(Fail::new("no pool is open"));
        };
        let (text, members) = match call.name {
            "rooted" => return Ok(format!(in alloc; "{:?}", rooted(alloc, core)?)?),
            "back" => {
                let Some(from) = self.from.take() else {
                    return Err(Fail::new("the pool was made"));
                };
                let disks = into_disks(OpenedPool { core, uberblock }, from.handed);
                self.shelf.keep(disks)?;
                return Ok(String::new(alloc));
            }
            "export" => match export(alloc, OpenedPool { core, uberblock }) {
                Ok(members) => (format!(in alloc; "exported")?, members),
                Err(NotExported::Stopped { refusal, disks }) => {
                    (format!(in alloc; "stopped: {refusal:?}")?, disks)
                }
                Err(NotExported::Refused { refusal, pool }) => {
                    self.pool = Some(pool);
                    return Ok(format!(in alloc; "refused: {refusal:?}")?);
                }
            },
            _ => (String::new(alloc), core.into_disks()),
        };
        'members: for member in members {
            if let Some(disk) = member.into_disk() {
                self.shelf.images.push(disk.into_inner().into_bytes())?;
            }
        }
        Ok(text)
    }

    /// What comes of a call.
    fn answer(&mut self, alloc: Global, call: &Call) -> Result<String, Fail> {
        match (call.name, call.numbers.as_slice()) {
            ("blank", [count]) => self.shelf.add_blank(alloc, *count, DISK_BYTES)?,
            ("small", []) => self.shelf.add_blank(alloc, 1, 512)?,
            ("save", []) => {
                self.shelf.saved = mem::replace(&mut self.shelf.images, Vec::new(alloc));
            }
            ("load", numbers) => self.shelf.load(alloc, numbers)?,
            ("drop", [number]) if (*number as usize) < self.shelf.images.len() => {
                self.shelf.images.remove(*number as usize);
            }
            ("bare" | "enlarge", numbers) => {
                'disks: for number in numbers {
                    if let Some(image) = self.shelf.images.get_mut(*number as usize) {
                        spoil(image, call.name == "bare");
                    }
                }
            }
            ("guid", []) => return Ok(self.shelf.bytes_at(alloc, GUID_AT)?),
            ("claim", [label]) => {
                let label = LABELS.get(*label as usize).copied().unwrap_or(0);
                return Ok(self.shelf.bytes_at(alloc, label.saturating_add(CLAIM_AT))?);
            }
            ("make", [guid]) => return self.make_pool(alloc, *guid),
            ("find", []) => return self.find_pool(alloc, call.words),
            ("open", [rewind]) => return self.open_pool(alloc, *rewind, call.words),
            ("close" | "back" | "export" | "rooted", []) => return self.end(alloc, call),
            _ => match (call.name, &self.from, &mut self.pool) {
                ("named", Some(from), _) => {
                    let identity = &from.identity;
                    return Ok(format!(in alloc; "{} {}", identity.name, identity.guid)?);
                }
                (_, _, Some(pool)) => return act(pool, alloc, call),
                _ => return Err(Fail::new(format_args!("no pool for {}", call.name))),
            },
        }
        Ok(String::new(alloc))
    }
}

/// What comes of the calls of a line, with semicolons between. A call that is only made is left out.
fn play(acts: &mut Acts, alloc: Global, line: &str) -> Result<String, Fail> {
    acts.shelf.images.clear();
    acts.pool = None;
    acts.from = None;
    let mut text = String::new(alloc);
    'calls: for part in line.split(';') {
        let answer = acts.answer(alloc, &Call::parse(alloc, part)?)?;
        if !text.is_empty() && !answer.is_empty() {
            text.push_str("; ")?;
        }
        text.push_str(answer.as_str())?;
    }
    Ok(text)
}

/// The lines of which another text comes than stands beside them, with what came.
fn wrong_lines<R: Eprint>(
    rt: &R,
    alloc: Global,
    tables: [&[(&str, &str)]; 2],
) -> Result<String, Fail> {
    let shelf = Shelf {
        images: Vec::new(alloc),
        saved: Vec::new(alloc),
        blank: vec![in alloc; 0; DISK_BYTES]?,
    };
    let mut acts = Acts {
        shelf,
        pool: None,
        from: None,
    };
    let mut wrong = String::new(alloc);
    'rows: for (line, wanted) in tables[0].iter().chain(tables[1].iter()) {
        let came = match play(&mut acts, alloc, line) {
            Ok(came) => came,
            Err(fail) => {
                let _ = eprintln!(rt; "not taken: {line}");
                return Err(fail);
            }
        };
        if !came.split_whitespace().eq(wanted.split_whitespace()) {
            wrong.push_str(format!(in alloc; "{line} -> {came}\n")?.as_str())?;
        }
    }
    Ok(wrong)
}

/// Pools are made and opened again, and have the configuration that they were made with.
#[test]
fn pools_outlive_their_program(rt: HostRuntime) -> Result<(), Fail> {
    let wrong = wrong_lines(&rt, rt.alloc(), [OPENED, ROOTED])?;
    assert!(rt; wrong.is_empty(), "{wrong}");
    Ok(())
}

/// Exports and opens go on without a disk that fails, and need enough.
#[test]
fn pools_go_on_without_a_disk(rt: HostRuntime) -> Result<(), Fail> {
    let wrong = wrong_lines(&rt, rt.alloc(), [EXPORTED, FAILING])?;
    assert!(rt; wrong.is_empty(), "{wrong}");
    Ok(())
}

/// Pools are found on disks in any order, also on disks that were spoilt.
#[test]
fn pools_are_found_on_their_disks(rt: HostRuntime) -> Result<(), Fail> {
    let wrong = wrong_lines(&rt, rt.alloc(), [FOUND, SPOILT])?;
    assert!(rt; wrong.is_empty(), "{wrong}");
    Ok(())
}
