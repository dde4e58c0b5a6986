//! `zpool scrub` over pools that say at once what a scrub finds, and whose core is the machine in memory.
use commands::{Pools, command};
use plain_machine::Machine;
use pool_command::{Files, NewPool, PoolStatus, ScrubReport, VolumeRow};
use pool_model::{Refusal, Step};
use pool_steps::PoolSteps;
use std::alloc::{AllocError, Global};
use std::test::Fail;

/// What meets a scrub.
#[derive(Clone, Copy, PartialEq, Drop)]
enum Trouble {
    None,
    /// It is refused.
    Refused,
    /// The open group is held, and so can't be committed.
    Held,
    /// A disk goes out behind it.
    Lost,
}

/// Whether a disk went out.
#[derive(Clone, Copy)]
struct Watch {
    has_lost: bool,
}

/// Pools of which each is a new machine, whatever its files.
#[derive(Drop)]
struct NewMachines {
    trouble: Trouble,
    report: ScrubReport,
}

impl Pools for NewMachines {
    type Pool = Machine;

    type Front = Watch;

    type Refusal = Refusal;

    ghost opens = { λ _ _ _ _ _. Unit {0} };

    ghost refuses = { λ _ _ _ _. Unit {0} };

    ghost scrubs = { λ _ _ _ _ _ _. Unit {0} };

    ghost refuses_scrub = { λ _ _ _ _. Unit {0} };

    ghost makes = { λ _ _ _. Unit {0} };

    ghost refuses_new = { λ _ _ _ _. Unit {0} };

    ghost closes = { λ _ _ _ _. Unit {0} };

    ghost exports = { λ _ _ _ _. Unit {0} };

    ghost refuses_export = { λ _ _ _ _ _. Unit {0} };

    ghost has_lost = { λ _ front. front.has_lost };

    ghost shows = { λ _ _ _. Unit {0} };

    fn open(&mut self, alloc: Global, files: &Files) -> Result<(Machine, Watch), Refusal> {
        let _ = files;
        let mut machine = Machine::create(alloc);
        if self.trouble == Trouble::Held {
            let _ = machine.take_step(Step::Hold(1));
        }
        let has_lost = self.trouble == Trouble::Lost;
        Ok((machine, Watch { has_lost }))
    }

    fn scrub(
        &mut self,
        alloc: Global,
        files: &Files,
    ) -> Result<(Machine, Watch, ScrubReport), Refusal> {
        if self.trouble == Trouble::Refused {
            return Err(Refusal::Suspended);
        }
        let (machine, watch) = self.open(alloc, files)?;
        Ok((machine, watch, self.report))
    }

    fn create(&mut self, _alloc: Global, _pool: NewPool) -> Result<(), Refusal> {
        Err(Refusal::NotNow)
    }

    fn close(&mut self, _pool: Machine, _front: Watch) {}

    fn export(&mut self, _alloc: Global, _pool: Machine, _front: Watch) -> Result<(), Refusal> {
        Err(Refusal::NotNow)
    }

    fn has_lost_disk(_alloc: Global, _pool: &Machine, front: &Watch) -> Result<bool, AllocError> {
        Ok(front.has_lost)
    }

    fn rows(_alloc: Global, _pool: &Machine) -> Result<Vec<VolumeRow>, Refusal> {
        Err(Refusal::NotNow)
    }

    fn status(alloc: Global, _pool: &Machine, _front: &Watch) -> Result<PoolStatus, AllocError> {
        Ok(PoolStatus {
            name: String::new(alloc),
            claim: 0,
            group: 0,
            vdevs: Vec::new(alloc),
        })
    }
}

/// What meets a scrub, what it finds (group, findings, left), and how `zpool scrub` ends then: its exit status, and what it prints.
const SCRUBS: [(Trouble, [u64; 3], &str); 6] = [
    (Trouble::None, [3, 0, 0], "0 group 3 findings 0\n"),
    (Trouble::None, [3, 12, 0], "0 group 3 findings 12\n"),
    (Trouble::None, [3, 12, 5], "0 group 3 findings 12\nleft 5\n"),
    (
        Trouble::Refused,
        [3, 12, 0],
        "1 zpool: refused 4 Suspended\n",
    ),
    (Trouble::Held, [3, 12, 0], "1 zpool: refused 13 NotNow\n"),
    (Trouble::Lost, [3, 12, 0], "1 zpool: refused 2 DiskFault\n"),
];

/// How `zpool scrub` ends.
fn told(alloc: Global, trouble: Trouble, found: [u64; 3]) -> Result<String, AllocError> {
    let [group, findings, left] = found;
    let report = ScrubReport {
        group,
        findings,
        left,
    };
    let mut pools = NewMachines { trouble, report };
    let mut input: &[u8] = &[];
    let mut output = Vec::new(alloc);
    let mut errors = Vec::new(alloc);
    let words = ["zpool", "scrub", "a", "b"];
    let status = command(
        alloc,
        &mut pools,
        &words,
        1,
        &mut input,
        &mut output,
        &mut errors,
    );
    let number = status.number();
    let shown = std::str::from_utf8(output.as_slice()).unwrap_or("no text");
    let wrong = std::str::from_utf8(errors.as_slice()).unwrap_or("no text");
    format!(in alloc; "{number} {shown}{wrong}")
}

#[test]
fn scrubs_are_told(rt: HostRuntime) -> Result<(), Fail> {
    for (trouble, found, wanted) in &SCRUBS {
        let text = told(rt.alloc(), *trouble, *found)?;
        assert!(rt; text.as_str() == *wanted, "{text}");
    }
    Ok(())
}
