//! Updates on threads under gates that refuse a start, count what they are asked and told and see on which threads, or see
//! that threads meet.
use crate::runs::{Call, Run, repeated, run_under};
use mt_gates::{AllBut, InOrder, Meets};
use mt_ports::{Gate, Status};
use std::process::Abort;
use std::sync::Wait;
use std::test::Fail;
use std::thread::Threads;

// One, two and three processors whose memory below 4 GB has type WB, and a page of it that two of them map.
const SOLO: &[u8] = b"cpus 1\ndump\n0fe 508\n200 6\n201 f00000800\n2ff 800\nend\n";

const PAIR: &[u8] =
    b"cpus 2\ndump\n0fe 508\n200 6\n201 f00000800\n2ff 800\nend\nram 100000 64\nmap 0 1000 100000 0\nmap 1 1000 100000 0\n";

const TRIO: &[u8] =
    b"cpus 3\ndump\n0fe 508\n200 6\n201 f00000800\n2ff 800\nend\nram 100000 64\nmap 0 1000 100000 0\nmap 1 1000 100000 0\n";

// The pair, a dirty line, an update, and what became of the line.
const DIRTY: &[u8] =
    b"cpus 2\ndump\n0fe 508\n200 6\n201 f00000800\n2ff 800\nend\nram 100000 64\nmap 0 1000 100000 0\nmap 1 1000 100000 0\nstore 0 1000 2a\nupdate\n200 0\nend\nword 100000\nload 1 1000\n";

const UPDATED: &[u8] =
    b"accepted\nok\nok\nstored WB\ncomplete 1\nmemory 000000000000002a\nvalue 000000000000002a UC\n";

// A self-snooping processor, one that joins it, and an update of both.
const JOINED: &[u8] =
    b"cpus 1\ndump\n0fe 508\n200 6\n201 f00000800\n2ff 800\nend\nselfsnoop 0\njoin\nupdate\n200 0\nend\n";

// Two processors whose files differ, of which one is self-snooping, and an update.
const UNLIKE: &[u8] =
    b"cpus 2\ndump\nversion 2\ncpu 0\n0fe 508\n200 6\n201 f00000800\n2ff 800\ncpu 1\n2ff 800\nend\nselfsnoop 1\nupdate\nend\n";

// WB below 4 GB, for requests.
const FOUR_GIGABYTES: &[u8] = b"0fe 508\n200 6\n201 f00000800\n2ff 800\nend\n";

// Such requests, of which three are carried out and three refused.
const REQUESTS: &[u8] = b"0fe 508\n200 6\n201 f00000800\n2ff 800\nend\n\
    base=0xf8000000 size=0x400000 type=write-combining\n\
    base=0x80000000 size=0x80000000 type=uncachable\n\
    base=0xf8000000 size=0x400000 type=write-combining\n\
    base=0x100000000 size=0x1000 type=write-through\n\
    disable=1\n\
    disable=7\n";

const TOLD: &[u8] =
    b"refused 200 undefined overlap\nset 1\nset 2\nset 3\nrefused 200 undefined overlap\nnot used\n\
    base=0x0 size=0x100000000 type=write-back # 0\n\
    base=0x80000000 size=0x80000000 type=uncachable # 1\n\
    base=0xf8000000 size=0x400000 type=write-combining # 2\n\
    base=0x100000000 size=0x1000 type=write-through # 3\n\
    era 3\n";

// An update.
const UPDATE: &[u8] = b"update\n200 0\nend\n";

// A request.
const CLEAR: &[u8] = b"disable=0\n";

const fn run<'a>(call: Call<'a>, input: &'a [u8], cpus: u32, updates: u64) -> Run<'a> {
    Run {
        call,
        input,
        end: b"",
        cpus,
        updates,
    }
}

// Whether processors were asked of from the refused one on, or else all, and told of once each. Each that the gate lets start comes on
// a thread of its own.
fn is_in_order<R>(gate: &InOrder<R>, run: &Run<'_>, refused: u32) -> bool {
    let first = if refused < run.cpus { refused } else { 0 };
    gate.is_kept() && run.is_counted(gate.starts(), first)
}

// The last processor is started first, so those before the refused one aren't asked of. 2 refuses none.
#[test]
fn one_start_may_be_refused(rt: HostRuntime) -> Result<(), Fail> {
    for refused in 0..3 {
        for (run, end) in [
            (
                run(Call::Tool(&["replay"]), JOINED, 2, 1),
                b"accepted\njoined 1\ncomplete 2\n".as_slice(),
            ),
            (
                run(Call::Tool(&["replay"]), UNLIKE, 2, 1),
                b"accepted\ncomplete 1\n",
            ),
            (run(Call::Tool(&["replay"]), DIRTY, 2, 1), UPDATED),
            (run(Call::Replay, DIRTY, 2, 1), UPDATED),
            (run(Call::Tool(&["proc", "2"]), REQUESTS, 2, 3), TOLD),
            (run(Call::Proc(2), REQUESTS, 2, 3), TOLD),
        ] {
            let run = Run { end, ..run };
            let gate = InOrder::new(&rt, refused);
            run.expect(&rt, &gate)?;
            assert!(rt; is_in_order(&gate, &run, refused));
        }
    }
    Ok(())
}

// Requests, and how many of them are carried out. Any other neither asks nor tells the gate.
const DONE: [(&[u8], u64); 3] = [
    (b"disable=7\nbase=1 size=1 type=write-back\n", 0),
    (
        b"base=0x80000000 size=0x80000000 type=uncachable\ndisable=1\nbase=0x80000000 size=0x80000000 type=uncachable\n\
        disable=1\ndisable=0\n",
        5,
    ),
    (
        b"base=0xf8000000 size=0x400000 type=write-combining\n# none\ndisable=0\n",
        1,
    ),
];

#[test]
fn each_request_asks_and_tells_once(rt: HostRuntime) -> Result<(), Fail> {
    for (requests, times) in DONE {
        let input = repeated(rt.alloc(), FOUR_GIGABYTES, requests, 1)?;
        for n in 0..19 {
            let (call, cpus) = match n {
                16 => (Call::Tool(&["proc", "1"]), 1),
                17 => (Call::Tool(&["proc", "3"]), 3),
                18 => (Call::Tool(&["proc", "16"]), 16),
                _ => (Call::Proc(n + 1), n + 1),
            };
            let run = run(call, &input, cpus, times);
            let gate = InOrder::new(&rt, 16);
            run.expect(&rt, &gate)?;
            assert!(rt; is_in_order(&gate, &run, 16), "{cpus} processors");
        }
    }
    Ok(())
}

// Two updates of each number of processors, over a memory of one line; several of a script; and that of jobs with accesses.
#[test]
fn each_update_asks_and_tells_once(rt: HostRuntime) -> Result<(), Fail> {
    for cpus in 1..=16 {
        let script = format!(in rt.alloc();
            "cpus {cpus}\ndump\n0fe 508\n200 6\n201 f00000800\n2ff 800\nend\nram 100000 1\nupdate\n200 0\nend\nupdate\n200 6\nend\n"
        )?;
        let run = run(Call::Replay, script.as_str().as_bytes(), cpus, 2);
        let gate = InOrder::new(&rt, 16);
        run.expect(&rt, &gate)?;
        assert!(rt; is_in_order(&gate, &run, 16), "{cpus} processors");
    }
    let round = b"store 0 1000 2a\nupdate\n200 4\nend\nstore 1 1040 2b\nupdate\n200 6\nend\n";
    let script = repeated(rt.alloc(), TRIO, round, 3)?;
    for (call, cpus, updates) in [
        (Call::Tool(&["replay"]), 3, 6),
        (Call::Replay, 3, 6),
        (Call::Tool(&["big", "7"]), 16, 8),
        (Call::Tool(&["private", "3", "7", "4"]), 3, 1),
    ] {
        let run = run(call, &script, cpus, updates);
        let gate = InOrder::new(&rt, 16);
        run.expect(&rt, &gate)?;
        assert!(rt; is_in_order(&gate, &run, 16), "{cpus} processors");
    }
    Ok(())
}

// A first text, and then a round so many times, without the pauses of the gate above.
fn expect_many<R: AllocGlobal + Threads + Wait + Abort + Sync>(
    rt: &R,
    (first, round, times): (&[u8], &[u8], usize),
    (call, cpus, updates): (Call<'_>, u32, u64),
) -> Result<(), Fail> {
    let input = repeated(rt.alloc(), first, round, times)?;
    let run = run(call, &input, cpus, updates);
    let gate = AllBut::new(16);
    run.expect(rt, &gate)?;
    assert!(rt; run.is_counted(&gate, 0), "{cpus} processors");
    Ok(())
}

// Of each two requests one clears the range, and one sets it again.
#[test]
fn a_thousand_updates_and_requests(rt: HostRuntime) -> Result<(), Fail> {
    let replay = Call::Tool(&["replay"]);
    let pair = b"disable=0\nbase=0 size=0x100000000 type=write-back\n".as_slice();
    for (text, run) in [
        ((SOLO, UPDATE, 100), (replay, 1, 100)),
        ((PAIR, UPDATE, 1000), (replay, 2, 1000)),
        ((TRIO, UPDATE, 100), (replay, 3, 100)),
        ((PAIR, UPDATE, 100), (Call::Replay, 2, 100)),
        (
            (FOUR_GIGABYTES, pair, 50),
            (Call::Tool(&["proc", "1"]), 1, 100),
        ),
        (
            (FOUR_GIGABYTES, pair, 500),
            (Call::Tool(&["proc", "2"]), 2, 1000),
        ),
        (
            (FOUR_GIGABYTES, pair, 10),
            (Call::Tool(&["proc", "16"]), 16, 20),
        ),
        ((FOUR_GIGABYTES, pair, 50), (Call::Proc(2), 2, 100)),
    ] {
        expect_many(&rt, text, run)?;
    }
    Ok(())
}

// So many processors see each other, so as many threads run at once; and the gate is told once of each.
#[test]
fn processors_meet(rt: HostRuntime) -> Result<(), Fail> {
    for (first, round, call, cpus) in [
        (PAIR, UPDATE, Call::Tool(&["replay"]), 2),
        (PAIR, UPDATE, Call::Replay, 2),
        (TRIO, UPDATE, Call::Tool(&["replay"]), 3),
        (TRIO, UPDATE, Call::Replay, 3),
        (FOUR_GIGABYTES, CLEAR, Call::Tool(&["proc", "2"]), 2),
        (FOUR_GIGABYTES, CLEAR, Call::Proc(2), 2),
        (FOUR_GIGABYTES, CLEAR, Call::Tool(&["proc", "16"]), 16),
        (SOLO, b"", Call::Tool(&["private", "2", "7", "0"]), 2),
    ] {
        let input = repeated(rt.alloc(), first, round, 1)?;
        let gate = Meets::of(&rt, cpus);
        run(call, &input, cpus, 1).expect(&rt, &gate)?;
        assert!(rt; gate.seen() == cpus as u64 && gate.told_each(0..cpus, 1));
    }
    Ok(())
}

// A command that starts no thread asks and tells nothing, and neither does one that is refused before an update.
#[test]
fn other_commands_ask_and_tell_nothing(rt: HostRuntime) -> Result<(), Fail> {
    for (words, status) in [
        ([].as_slice(), Status::Usage),
        (&["--version"], Status::Done),
        (&["--help"], Status::Done),
        (&["check"], Status::Done),
        (&["show"], Status::Done),
        (&["types"], Status::Done),
        (&["page", "200000", "2"], Status::Done),
        (&["tidy"], Status::Done),
        (&["gran", "1000000"], Status::Done),
        (&["make", "7"], Status::Done),
        (&["proc", "2"], Status::BadText),
        (&["replay"], Status::BadText),
        (&["private", "17", "7", "1"], Status::Usage),
    ] {
        let gate = AllBut::new(16);
        let ran = run_under(&rt, Call::Tool(words), b"0fe 508\n2ff c06\n", &gate)?;
        assert_eq!(rt; ran.status, status);
        assert!(rt; gate.asked_each(0..0, 0) && gate.told_each(0..0, 0));
    }
    Ok(())
}

#[test]
fn one_thread_meets_nobody(rt: HostRuntime) {
    let gate = Meets::within(&rt, 2, 20);
    gate.arrived(0);
    gate.arrived(1);
    gate.arrived(0);
    assert!(rt; gate.seen() < 2);
    assert!(rt; !gate.told_each(0..2, 1));
}

// A gate refuses processor 1, so that 1 and 0 leave on this thread. It lets 2 start, which then may not come on this thread.
#[test]
fn a_gate_sees_faults(rt: HostRuntime) {
    let gate = InOrder::new(&rt, 1);
    assert!(rt; !gate.may_start(1));
    gate.arrived(1);
    gate.arrived(0);
    assert!(rt; gate.is_kept());
    assert!(rt; gate.starts().asked_each(1..2, 1) && gate.starts().told_each(0..2, 1));
    assert!(rt; gate.may_start(2));
    gate.arrived(2);
    assert!(rt; !gate.is_kept());
    gate.arrived(16);
    assert!(rt; !gate.starts().told_at_most(0..3, 1));
}
