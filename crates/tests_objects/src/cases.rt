//! The cases: lines of calls, and beside each what comes of it. Line breaks and further spaces don't count.
use crate::datasets::Datasets;
use crate::lines::Call;
use crate::objects::EMPTY;
use std::alloc::Global;
use std::test::Fail;

/// A table without lines.
pub(crate) const NO_MORE: &[(&str, &str)] = &[];

/// Tables as the bytes of whole blocks.
pub(crate) const FORMS: &[(&str, &str)] = &[
    // Rows are read as they were written. Then a number of rows below theirs, one that has no room, and a byte other than zero
    // in the first row and behind the last.
    (
        "encode short =01*32 =02*32; decode short; decode short 0 1; decode short 2 1;
            decode short 8 1; decode short 31 1; decode short 96 1; decode short 4095 1",
        "02 00*31 01*32 02*32 00*4000; 01*32 02*32; BadPointer; BadPointer;
            BadPointer; BadPointer; BadPointer; BadPointer",
    ),
    // No block, a part of one, and one more than the rows need. A block of zeros is a table with no rows.
    (
        "rows; decode short; rows =00*4095; decode short; rows =00*8192; decode short;
            rows =00*4096; decode short",
        "none; BadPointer; 00*4095; BadPointer; 00*8192; BadPointer; 00*4096; none",
    ),
    // A table takes as few blocks as it can: one has room for 4,088 rows of a byte.
    (
        "encode bytes =07*4088; encode bytes =07*4089",
        "f8 0f 00*6 07*4088; f9 0f 00*6 07*4089 00*4095",
    ),
    // The spans of a disk that is away, and of one that is back: the later one first. The number of rows, which stays 2, a disk that
    // is there twice, an end before the beginning, and a last word other than zero.
    (
        "set spans 11 8 -; set spans 7 5 9; encode spans; remove spans 7; remove spans 11;
            decode spans 0 2; find spans 7; find spans 11;
            decode spans 64 7; decode spans 40 10; decode spans 56 1",
        "ok; ok; 02 00*31 07 00*7 05 00*7 09 00*15 0b 00*7 08 00*7 ff*8 00*4008; true; true;
            02 00*31 07 00*7 05 00*7 09 00*15 0b 00*7 08 00*7 ff*8 00*4008;
            7 5 9; 11 8 18446744073709551615; BadPointer; BadPointer; BadPointer",
    ),
    // Two space maps, the later one first. The number of rows, which stays 2, the second metaslab before the first in the same vdev, and a
    // last word other than zero.
    (
        "set maps 1 2 8; set maps 0 3 9; encode maps; remove maps 0 3; remove maps 1 2;
            decode maps 0 2; find maps 0 3; find maps 1 2; decode maps 64 0; decode maps 56 1",
        "ok; ok; 02 00*39 03 00*7 09 00*15 01 00*7 02 00*7 08 00*4015; true; true;
            02 00*39 03 00*7 09 00*15 01 00*7 02 00*7 08 00*4015;
            0 3 9; 1 2 8; BadPointer; BadPointer",
    ),
    // Names come in order, each once.
    (
        "insert names 4 =6d; insert names 5 =7a; insert names 6 =61; insert names 7 =6d;
            encode names; remove names =6d; remove names =6d; encode names",
        "true; true; true; false;
            03 00*63 61 00*55 06 00*7 6d 00*55 04 00*7 7a 00*55 05 00*3847; Some(4); None;
            02 00*63 61 00*55 06 00*7 7a 00*55 05 00*3911",
    ),
];

/// Objects that one group makes and the next one writes anew or lengthens, and what is read of them then.
pub(crate) const OBJECTS: &[(&str, &str)] = &[
    // A table of 300 rows, which are written anew by two.
    (
        "empty; make short 5 =07*9600; read short 5; group 2; rewrite short 5 =08*64; read short 5",
        "ok; creates 0 1 2; 07*9600; ok; replaces by 0; 08*64",
    ),
    // Tables get more rows: the old ones end in the first block, in the second and in the third.
    (
        "empty; make long 5 =07*3000; read long 5; end long 5;
            group 2; extend long 5 =08*2000; read long 5; end long 5;
            group 3; extend long 5 =09*4000; read long 5; end long 5;
            group 4; extend long 5 =09*4000; read long 5; end long 5",
        "ok; creates 0; 07*3000; 3 rows; ok; puts 0 1; 07*3000 08*2000; 5 rows;
            ok; puts 0 1 2; 07*3000 08*2000 09*4000; 9 rows;
            ok; puts 0 2 3; 07*3000 08*2000 09*8000; 13 rows",
    ),
    // What is no end is refused: beside a byte of a row one of the first row, the last one of the block, behind the rows, and more rows
    // than the block has room for.
    (
        "empty; make block 5 =02 =00*31 =07 =00*4063; end long 5",
        "ok; creates 0; 2 rows",
    ),
    (
        "empty; group 2; make block 5 =02 =00*30 =07 =00*4064; end long 5",
        "ok; ok; creates 0; BadPointer",
    ),
    (
        "empty; group 3; make block 5 =02 =00*4094 =07; end long 5",
        "ok; ok; creates 0; BadPointer",
    ),
    (
        "empty; group 4; make block 5 =05 =00*31 =07 =00*4063; end long 5",
        "ok; ok; creates 0; BadPointer",
    ),
    // A directory.
    (
        "empty; insert names 4 =6d; insert names 5 =7a; insert names 6 =61; make names 1; read names;
            group 2; rewrite names 1; read names",
        "ok; true; true; true; creates 0;
            03 00*63 61 00*55 06 00*7 6d 00*55 04 00*7 7a 00*55 05 00*3847; ok; replaces by 0;
            03 00*63 61 00*55 06 00*7 6d 00*55 04 00*7 7a 00*55 05 00*3847",
    ),
    // A configuration with no vdevs.
    (
        "empty; make config 2; read config; group 2; rewrite config 2; read config",
        "ok; creates 0; 0 vdevs; ok; replaces by 0; 0 vdevs",
    ),
    // A record, and none of another object.
    (
        "empty; make volume 3 1 0 0 0 9; read record 3; read record 4;
            group 2; rewrite volume 3 2 0 0 0 9; read record 3; read record 4",
        "ok; creates 0;
            volume 1048576/4096 created 1 previous 0 next 0 clones 0 list 9 set 1; BadPointer;
            ok; puts 0;
            volume 1048576/4096 created 2 previous 0 next 0 clones 0 list 9 set 1; BadPointer",
    ),
    // Two spans, and then the second of them.
    (
        "empty; set spans 11 8 -; set spans 7 5 9; make spans 3; read spans; find spans 7;
            group 2; remove spans 7; rewrite spans 3; read spans; find spans 7",
        "ok; ok; ok; creates 0; 02 00*31 07 00*7 05 00*7 09 00*15 0b 00*7 08 00*7 ff*8 00*4008; 7 5 9;
            ok; true; replaces by 0; 01 00*31 0b 00*7 08 00*7 ff*8 00*4040; none",
    ),
    // Two space maps, and then the second of them.
    (
        "empty; set maps 1 2 8; set maps 0 3 9; make maps 4; read maps; find maps 0 3;
            group 2; remove maps 0 3; rewrite maps 4; read maps; find maps 0 3",
        "ok; ok; ok; creates 0; 02 00*39 03 00*7 09 00*15 01 00*7 02 00*7 08 00*4015; 0 3 9;
            ok; true; replaces by 0; 01 00*31 01 00*7 02 00*7 08 00*4047; none",
    ),
    // A dead list, which is written anew, and one that gets more blocks.
    (
        "empty; make list 5 7; read list 5; group 2; rewrite list 5 7 9; read list 5",
        "ok; creates 0; 7; ok; replaces by 0; 7 9",
    ),
    (
        "empty; make list 5 7; end list 5; read list 5;
            group 2; extend list 5 9 8; end list 5; read list 5",
        "ok; creates 0; 1 rows; 7; ok; puts 0; 3 rows; 7 8 9",
    ),
    // A hole is no dead block, and there is no list where there is no object.
    (
        "empty; make dead 5 =00*128; read list 5; read list 6",
        "ok; creates 0; BadList; Unread(BadPointer)",
    ),
    // A map of which 4 sectors are in use, which is written anew with all of them, and one that gets an entry.
    (
        "empty; make space 5 10 4; read space 5; group 2; rewrite space 5 0 64; read space 5",
        "ok; creates 0; free 0,10 14,50; ok; replaces by 0; free",
    ),
    (
        "empty; make space 5 10 4; end space 5; read space 5;
            group 2; extend space 5 =0100140000000000; end space 5; read space 5",
        "ok; creates 0; 1 rows; free 0,10 14,50; ok; puts 0; 2 rows; free 0,10 14,6 22,42",
    ),
    // Four sectors are allocated, and there is no map by another number. They are freed while they are free, the row has bit 63, the run ends at 65.
    (
        "empty; make map 5 =03000a0000000000; read space 5; read space 6",
        "ok; creates 0; free 0,10 14,50; Unread(BadPointer)",
    ),
    (
        "empty; make map 5 =03800a0000000000; read space 5",
        "ok; creates 0; BadMap",
    ),
    (
        "empty; make map 5 =03000a0000000080; read space 5",
        "ok; creates 0; BadMap",
    ),
    (
        "empty; make map 5 =03003d0000000000; read space 5",
        "ok; creates 0; BadMap",
    ),
];

/// Space maps that follow what groups plan and give back.
pub(crate) const FOLLOWED: &[(&str, &str)] = &[
    // The second group gives back the block that the first one planned. A plan of nothing has no changes. The maps are loaded in a store that
    // knows no blocks, and not once more.
    (
        "meta 1; make maps 4; follow 5; follow 7; idle 9; reopen; differ; load; differ; load",
        "ok; creates 0; 3 changes 2 0 differ; 2 changes 2 0 differ; 0 changes;
            ok; 2 differ; true; 0 differ; false",
    ),
    // Maps are written anew where they have grown long: after 38 groups, of which each has more entries for both maps, the longest has nine.
    (
        "meta 12; make maps 4; many 38; differ; read maps; end space 8; end space 9",
        "ok; creates 0; group 39; 0 differ; 02 00*47 08 00*23 01 00*7 09 00*4015; 9 rows; 9 rows",
    ),
];

/// Records and dead lists that groups change.
pub(crate) const DATASETS: &[(&str, &str)] = &[
    // A record and a list of a block are made; they are changed, and others are made beside them; the first list takes the place of the
    // other one, and the first record goes.
    (
        "begin 0; put volume 5 1 0 0 0 9; list 6; add 6 7; commit;
            group 2; begin 1; alter 5 5 2; add 6 9; alter 5 7 3; list 8; add 8 8; commit;
            read record 5; read record 7; read list 6; read list 8;
            group 3; begin 2; add 6 11; move 6 8; free list 6; free record 5; commit;
            read record 5; read record 7; read list 6; read list 8",
        "ok; ok; ok; ok; ok; ok; ok; ok; ok; ok; ok; ok; ok;
            volume 1048576/4096 created 2 previous 0 next 0 clones 0 list 9 set 1, 1 others;
            volume 1048576/4096 created 3 previous 0 next 0 clones 0 list 9 set 1, 1 others;
            7 9; 8; ok; ok; ok; ok; ok; ok; ok; BadPointer;
            volume 1048576/4096 created 3 previous 0 next 0 clones 0 list 9 set 1, 1 others;
            Unread(BadPointer); 7 9 11",
    ),
    // A snapshot keeps what its volume loses. Of two blocks that left the volume the snapshot has one, and the other is freed. The volume stands
    // behind its snapshot, which has a clone; the snapshot has the dead list that the volume had, and the volume what it lost of the snapshot.
    (
        "new; begin 0; create small 5 1 0 0 0 6; commit; group 2; begin 1; snapshot 5 7 8; commit;
            group 4; begin 3; overwrite 5 4 1 3; clone 7 9 10; commit;
            read record 5; read record 7; read record 9; read list 6; read list 8; read list 10",
        "ok; ok; ok; ok; ok; ok; ok; ok; ok; ok; 3; ok; ok;
            volume 65536/8192 created 1 previous 7 next 0 clones 0 list 8 set 4;
            snapshot 65536/8192 created 2 previous 0 next 5 clones 1 list 6 set 1;
            volume 65536/8192 created 4 previous 7 next 0 clones 0 list 10 set 1;
            none; 1; none",
    ),
    // Two snapshots, the head behind them and a clone of the first. The head doesn't reach two blocks any more that the second snapshot does:
    // they were born in the groups 5 and 7. The snapshot with a clone is not destroyed, nor the head with snapshots. The second snapshot goes, then the
    // clone, and then the first: each frees what nothing reaches.
    (
        "new; group 18; begin 17; put snapshot 5 6 0 6 1 10; put snapshot 6 8 5 7 0 11;
            put volume 7 4 6 0 0 12; put volume 8 10 5 0 0 13; list 10; list 11; list 12; list 13;
            add 12 5; add 12 7; commit; begin 18; destroy 5; begin 18; destroy_head 7;
            begin 18; destroy 6; destroy_head 8; destroy 5",
        "ok; ok; ok; ok; ok; ok; ok; ok; ok; ok; ok; ok; ok; ok; ok; BadPointer; ok; BadPointer;
            ok; 7; ok; 5",
    ),
    // Group 1 makes a volume of two blocks: its record is object 5, and its dead list object 6. Group 2 writes to its second block, before the root
    // is planned.
    (
        "new; begin 1; act 1 1024 512; store; names; record 5; write 2 5 1 =07; record 5",
        "ok; ok; ok; ok; 1 names next 7;
            volume 1024/512 created 1 previous 0 next 0 clones 0 list 6 set 1, 1 others;
            1 1, 2 others;
            volume 1024/512 created 1 previous 0 next 0 clones 0 list 6 set 2, 1 others",
    ),
];

/// The answers to the calls of a line, with semicolons between them.
fn play(alloc: Global, bench: &mut Datasets, line: &str) -> Result<String, Fail> {
    let mut text = String::new(alloc);
    for part in line.split(';') {
        let call = Call::parse(alloc, part)?;
        let answer = bench.answer(alloc, &call)?;
        if !text.is_empty() {
            text.push_str("; ")?;
        }
        text.push_str(answer.as_str())?;
    }
    Ok(text)
}

/// The lines of which another text comes than stands beside them, with what came.
fn wrong_lines<R: Eprint>(
    rt: &R,
    alloc: Global,
    bench: &mut Datasets,
    tables: [&[(&str, &str)]; 2],
) -> Result<String, Fail> {
    let mut wrong = String::new(alloc);
    for (line, wanted) in tables[0].iter().chain(tables[1].iter()) {
        let came = match play(alloc, bench, line) {
            Ok(came) => came,
            Err(fail) => {
                let _ = eprintln!(rt; "not taken: {line}");
                return Err(fail);
            }
        };
        if !came.split_whitespace().eq(wanted.split_whitespace()) {
            write!(wrong, "{line} -> {came}\n")?;
        }
    }
    Ok(wrong)
}

/// Those of two tables, of which the first begins with a new store.
pub(crate) fn wrong_of<R: Eprint>(
    rt: &R,
    alloc: Global,
    tables: [&[(&str, &str)]; 2],
) -> Result<String, Fail> {
    let mut bench = Datasets::new(alloc, 1, EMPTY)?;
    wrong_lines(rt, alloc, &mut bench, tables)
}
