//! Sessions of clients of a network block device: what they send, and what they get. The bytes are those of "The NBD protocol".
use nbd_serve::{Export, serve};
use plain_machine::Machine;
use pool_model::{Action, Change, Name, Step};
use pool_steps::PoolSteps;
use std::alloc::{AllocError, Global};
use std::io::Write;
use std::test::Fail;
use volume_device::Device;

/// The bytes that messages begin with.
const WORDS: [(&str, &str); 5] = [
    ("greeting", "4e42444d4147494349484156454f50540003"),
    ("option", "49484156454f5054"),
    ("reply", "0003e889045565a9"),
    ("request", "25609513"),
    ("answer", "67446698"),
];

/// Sessions that end before the transmission, or with its first request: what the client sends, what it gets, and how it ends.
const HANDSHAKES: [(&str, &str, &str); 19] = [
    // GO by the name, and DISC
    (
        "00000003 option 00000007 00000007 00000001 76 0000 request 0000 0002 0000000000000000 0000000000000000 00000000",
        "greeting reply 00000007 00000003 0000000c 0000 0000000000001000 000d reply 00000007 00000003 0000000e 0003 00000200 00001000 02000000 reply 00000007 00000001 00000000",
        "Ok(())",
    ),
    // GO for the default export, with one kind of information; then the input ends
    (
        "00000001 option 00000007 00000008 00000000 0001 0003",
        "greeting reply 00000007 00000003 0000000c 0000 0000000000001000 000d reply 00000007 00000003 0000000e 0003 00000200 00001000 02000000 reply 00000007 00000001 00000000",
        "Ok(())",
    ),
    // INFO and ABORT
    (
        "00000001 option 00000006 00000006 00000000 0000 option 00000002 00000000",
        "greeting reply 00000006 00000003 0000000c 0000 0000000000001000 000d reply 00000006 00000003 0000000e 0003 00000200 00001000 02000000 reply 00000006 00000001 00000000 reply 00000002 00000001 00000000",
        "Ok(())",
    ),
    // EXPORT_NAME without zeros and with them
    (
        "00000003 option 00000001 00000001 76",
        "greeting 0000000000001000 000d",
        "Ok(())",
    ),
    (
        "00000001 option 00000001 00000000",
        "greeting 0000000000001000 000d 00*124",
        "Ok(())",
    ),
    // LIST, LIST with data, ABORT
    (
        "00000003 option 00000003 00000000 option 00000003 00000001 00 option 00000002 00000000",
        "greeting reply 00000003 00000002 00000005 00000001 76 reply 00000003 00000001 00000000 reply 00000003 80000003 00000000 reply 00000002 00000001 00000000",
        "Ok(())",
    ),
    // STRUCTURED_REPLY, STARTTLS and an option of no name, with data
    (
        "00000003 option 00000008 00000000 option 00000005 00000000 option 000000ff 00000003 010203 option 00000002 00000000",
        "greeting reply 00000008 80000001 00000000 reply 00000005 80000001 00000000 reply 000000ff 80000001 00000000 reply 00000002 00000001 00000000",
        "Ok(())",
    ),
    // another name, and broken data: too short, a name that is too long, a count that is too great
    (
        "00000003 option 00000007 00000007 00000001 77 0000 option 00000006 00000007 00000001 77 0000 option 00000002 00000000",
        "greeting reply 00000007 80000006 00000000 reply 00000006 80000006 00000000 reply 00000002 00000001 00000000",
        "Ok(())",
    ),
    (
        "00000003 option 00000007 00000005 00000000 00 option 00000006 00000006 00000001 0000 option 00000007 00000006 00000000 0001 option 00000002 00000000",
        "greeting reply 00000007 80000003 00000000 reply 00000006 80000003 00000000 reply 00000007 80000003 00000000 reply 00000002 00000001 00000000",
        "Ok(())",
    ),
    // EXPORT_NAME of another export
    (
        "00000003 option 00000001 00000001 77",
        "greeting",
        "Err(Hostile)",
    ),
    // no FIXED_NEWSTYLE, and a flag that is unknown
    ("00000002", "greeting", "Err(Hostile)"),
    ("00000005", "greeting", "Err(Hostile)"),
    // another magic number, and more data than may be
    (
        "00000003 49484156454f5055 00000002 00000000",
        "greeting",
        "Err(Hostile)",
    ),
    (
        "00000003 option 000000ff 00010001",
        "greeting",
        "Err(Hostile)",
    ),
    // torn: at once, in the flags, between options, in an option's head, in its data
    ("", "greeting", "Err(Torn)"),
    ("0000", "greeting", "Err(Torn)"),
    ("00000003", "greeting", "Err(Torn)"),
    ("00000003 option 0000", "greeting", "Err(Torn)"),
    (
        "00000003 option 00000003 00000002 00",
        "greeting",
        "Err(Torn)",
    ),
];

/// Requests behind EXPORT_NAME, and the replies to them; whether the export is read-only, and how the session ends.
const TRANSMISSIONS: [(bool, &str, &str, &str); 14] = [
    // a flush; flushes with an offset and with a length
    (
        false,
        "request 0000 0003 0000000000000007 0000000000000000 00000000 request 0000 0003 0000000000000008 0000000000000200 00000000 request 0000 0003 0000000000000009 0000000000000000 00000200",
        "answer 00000000 0000000000000007 answer 00000016 0000000000000008 answer 00000016 0000000000000009",
        "Ok(())",
    ),
    // requests behind a DISC are not read
    (
        false,
        "request 0000 0002 0000000000000000 0000000000000000 00000000 request 0000 0003 0000000000000007 0000000000000000 00000000",
        "",
        "Ok(())",
    ),
    // reads that aren't made of blocks, and of nothing
    (
        false,
        "request 0000 0000 0000000000000001 0000000000000001 00000200 request 0000 0000 0000000000000002 0000000000000000 00000201 request 0000 0000 0000000000000003 0000000000000000 00000000",
        "answer 00000016 0000000000000001 answer 00000016 0000000000000002 answer 00000016 0000000000000003",
        "Ok(())",
    ),
    // reads past the end, at the greatest offset, and of more than 32 MiB
    (
        false,
        "request 0000 0000 0000000000000001 0000000000000e00 00000400 request 0000 0000 0000000000000002 fffffffffffffe00 00000400 request 0000 0000 0000000000000003 0000000000000000 02000200",
        "answer 00000016 0000000000000001 answer 00000016 0000000000000002 answer 00000016 0000000000000003",
        "Ok(())",
    ),
    // writes that aren't made of blocks, whose payloads are not taken for requests
    (
        false,
        "request 0000 0001 0000000000000001 0000000000000000 00000003 010203 request 0000 0001 0000000000000002 0000000000000001 00000200 25*512 request 0000 0001 0000000000000003 0000000000000000 00000000",
        "answer 00000016 0000000000000001 answer 00000016 0000000000000002 answer 00000016 0000000000000003",
        "Ok(())",
    ),
    // writes past the end
    (
        false,
        "request 0000 0001 0000000000000001 0000000000001000 00000200 25*512 request 0001 0001 0000000000000002 fffffffffffffe00 00000200 25*512",
        "answer 0000001c 0000000000000001 answer 0000001c 0000000000000002",
        "Ok(())",
    ),
    // writes to an export that is read-only
    (
        true,
        "request 0000 0001 0000000000000001 0000000000000000 00000200 25*512 request 0001 0001 0000000000000002 0000000000000001 00000001 25 request 0000 0003 0000000000000003 0000000000000000 00000000",
        "answer 00000001 0000000000000001 answer 00000001 0000000000000002 answer 00000000 0000000000000003",
        "Ok(())",
    ),
    // TRIM and a command of no name; flags other than FUA, with a payload
    (
        false,
        "request 0000 0004 0000000000000001 0000000000000000 00000200 request 0000 00ff 0000000000000002 0000000000000000 00000000 request 0002 0000 0000000000000003 0000000000000000 00000200 request 0003 0001 0000000000000004 0000000000000000 00000200 25*512",
        "answer 00000016 0000000000000001 answer 00000016 0000000000000002 answer 00000016 0000000000000003 answer 00000016 0000000000000004",
        "Ok(())",
    ),
    // torn in a head, and in a payload
    (
        false,
        "request 0000 0003 0000000000000007 0000000000000000 00000000 request 00",
        "answer 00000000 0000000000000007",
        "Err(Torn)",
    ),
    (
        false,
        "request 0000 0001 0000000000000001 0000000000000000 00000400 25*512",
        "",
        "Err(Torn)",
    ),
    // another magic number, and a write of more than 32 MiB
    (
        false,
        "request 0000 0003 0000000000000007 0000000000000000 00000000 25609514 0000 0003 0000000000000008 0000000000000000 00000000",
        "answer 00000000 0000000000000007",
        "Err(Hostile)",
    ),
    (
        false,
        "request 0000 0001 0000000000000001 0000000000000000 02000200 25*512",
        "",
        "Err(Hostile)",
    ),
    // a write, with FUA and without, and reads of it
    (
        false,
        "request 0000 0001 0000000000000001 0000000000000200 00000200 07*512 request 0000 0000 0000000000000002 0000000000000000 00000600 request 0001 0001 0000000000000003 0000000000000e00 00000200 09*512 request 0001 0000 0000000000000004 0000000000000c00 00000400",
        "answer 00000000 0000000000000001 answer 00000000 0000000000000002 00*512 07*512 00*512 answer 00000000 0000000000000003 answer 00000000 0000000000000004 00*512 09*512",
        "Ok(())",
    ),
    // a read of all
    (
        true,
        "request 0000 0000 00000000000000ff 0000000000000000 00001000",
        "answer 00000000 00000000000000ff 00*4096",
        "Ok(())",
    ),
];

/// What a client sends to be served the default export, and gets.
const BEGUN: (&str, &str) = (
    "00000003 option 00000001 00000000 ",
    "greeting 0000000000001000 ",
);

/// The bytes of a line: words, numbers in hexadecimal digits, and bytes so many times.
fn bytes_of(alloc: Global, line: &str) -> Result<Vec<u8>, Fail> {
    let mut bytes = Vec::new(alloc);
    for token in line.split(' ') {
        let digits = WORDS
            .iter()
            .find(|word| word.0 == token)
            .map_or(token, |word| word.1);
        let (digits, times) = digits.split_once('*').unwrap_or((digits, "1"));
        let part = hex::decode(alloc, digits).ok().ok_or("digits")?;
        let times = times.parse::<usize>().ok().ok_or("times")?;
        for _ in 0..times {
            bytes.extend_from_slice(part.as_slice())?;
        }
    }
    Ok(bytes)
}

fn named(alloc: Global) -> Result<Name, AllocError> {
    Ok(Name::new(Vec::from_slice(alloc, b"v")?))
}

/// A pool with a volume of 4,096 bytes.
fn pool(alloc: Global) -> Result<Machine, AllocError> {
    let mut machine = Machine::create(alloc);
    let name = named(alloc)?;
    let created = Step::Act(Action {
        writer: 2,
        number: 1,
        change: Change::Create {
            name,
            size: 4096,
            block_size: 512,
        },
    });
    machine.take_step(Step::Hold(2));
    machine.take_step(created);
    machine.take_step(Step::Release(2));
    machine.take_step(Step::Close);
    machine.take_step(Step::Quiesce);
    machine.take_step(Step::Plan { timestamp: 1 });
    for _ in 0..8 {
        machine.take_step(Step::Device);
    }
    Ok(machine)
}

/// How a client's session ends, and the pool then.
fn served<W: Write>(
    alloc: Global,
    read_only: bool,
    sent: &[u8],
    got: &mut W,
) -> Result<(String, Machine), Fail> {
    let mut device = Device::new(pool(alloc)?, named(alloc)?, 9);
    let export = Export {
        name: named(alloc)?,
        size: 4096,
        read_only,
    };
    let mut input = sent;
    let ended = serve(alloc, &mut device, &export, &mut input, got);
    let text = format!(in alloc; "{ended:?}")?;
    Ok((text, device.into_core()))
}

#[test]
fn handshakes_are_answered(rt: HostRuntime) -> Result<(), Fail> {
    let alloc = rt.alloc();
    for (sent, wanted, end) in &HANDSHAKES {
        let mut got = Vec::new(alloc);
        let (ended, _) = served(alloc, false, bytes_of(alloc, sent)?.as_slice(), &mut got)?;
        let wanted = bytes_of(alloc, wanted)?;
        assert!(rt; got.as_slice() == wanted.as_slice(), "{sent}: {got:?}");
        assert!(rt; ended.as_str() == *end, "{sent}: {ended}");
    }
    Ok(())
}

#[test]
fn requests_are_answered(rt: HostRuntime) -> Result<(), Fail> {
    let alloc = rt.alloc();
    for (read_only, sent, wanted, end) in &TRANSMISSIONS {
        let line = format!(in alloc; "{}{sent}", BEGUN.0)?;
        let flags = if *read_only { "000f" } else { "000d" };
        let answer = format!(in alloc; "{}{flags} {wanted}", BEGUN.1)?;
        let sent = bytes_of(alloc, line.as_str())?;
        let mut got = Vec::new(alloc);
        let (ended, _) = served(alloc, *read_only, sent.as_slice(), &mut got)?;
        let wanted = bytes_of(alloc, answer.as_str())?;
        assert!(rt; got.as_slice() == wanted.as_slice(), "{line}: {got:?}");
        assert!(rt; ended.as_str() == *end, "{line}: {ended}");
    }
    Ok(())
}

/// Two bytes at a write's front, as they are committed.
fn committed(alloc: Global, machine: &mut Machine) -> Result<String, AllocError> {
    let name = named(alloc)?;
    let read = machine.take_step(Step::ReadUnder {
        group: 5,
        name,
        offset: 511,
        len: 2,
    });
    format!(in alloc; "{read:?}")
}

/// What was written is committed at the end, where the input tears and where the output is full.
#[test]
fn the_end_commits(rt: HostRuntime) -> Result<(), Fail> {
    let alloc = rt.alloc();
    let sent = bytes_of(
        alloc,
        "00000003 option 00000001 00000000 request 0000 0001 0000000000000001 0000000000000200 00000200 07*512 request",
    )?;
    for (room, end) in [(100, "Err(Torn)"), (40, "Err(Output)"), (10, "Err(Output)")] {
        let mut got = vec![in alloc; 0u8; room]?;
        let (ended, mut machine) = served(alloc, false, sent.as_slice(), &mut got.as_mut_slice())?;
        assert!(rt; ended.as_str() == end, "{room}: {ended}");
        let text = committed(alloc, &mut machine)?;
        let wanted = if room == 10 {
            "Refused(GroupGone)"
        } else {
            "Bytes(Bytes { bytes: [0, 7] })"
        };
        assert!(rt; text.as_str() == wanted, "{room}: {text}");
    }
    Ok(())
}
