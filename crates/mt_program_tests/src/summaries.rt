//! Numbers of the transcripts of scripts.
use mt_gates::AllBut;
use mt_ports::Gate;
use mt_replay::{Totals, summary};
use std::test::Fail;

const EACH_KIND: &[u8] =
    b"cpus 2\ndump\n0fe 508\n200 6\n201 f00000800\n2ff 800\nend\nram 100000 64\nmap 0 1000 100000 0\nmap 1 1000 100000 0\nstore 0 1000 2a\nload 0 1000\nfence 0\ninvlpg 0 1000\ncr3 0\npge 0 on\ncd 0 off\nword 100000\nmsr 0 200\nreport\nupdate\n200 0\nend\nbegin\n200 6\nend\nstep 0\ngo\ncancel\nload 1 1000\nload 1 2000\n";

// Lets no thread start.
#[derive(Drop)]
struct Shut;

impl Gate for Shut {
    fn may_start(&self, _k: u32) -> bool {
        false
    }

    fn arrived(&self, _k: u32) {}
}

const fn totals(lines: u64, updates: u64, values: u64, memory: u64) -> Totals {
    Totals {
        lines,
        updates,
        values,
        memory,
    }
}

// Values are added modulo 2^64, and a store of WB memory isn't in memory before it is written back. A text without
// a state has the one line that ends it. The line of an offence is counted, and what stands behind it isn't run.
// The first text has the line `accepted`, one for each of eleven commands, three of the report, one for each section's
// end, and five more. Its one whole update asks and tells the gate that is handed in.
#[test]
fn sums_of_transcripts(rt: HostRuntime) -> Result<(), Fail> {
    for (script, wanted) in [
        (EACH_KIND, totals(22, 1, 0x54, 0x2a)),
        (
            b"cpus 1\ndump\n0fe 400\n2ff 806\nend\nram 100000 1\nmap 0 1000 100000 0\nstore 0 1000 ffffffffffffffff\nload 0 1000\nload 0 1000\nload 0 1000",
            totals(6, 0, 0xffff_ffff_ffff_fffd, 0),
        ),
        (b"", totals(1, 0, 0, 0)),
        (
            b"cpus 1\ndump\n0fe 400\n2ff 803\nend\nram 100000 1\nreport\n",
            totals(1, 0, 0, 0),
        ),
        (b"cpus 1\ndump\n0fe 400\n2ff 806\n", totals(1, 0, 0, 0)),
        (b"load 0 1000\n", totals(1, 0, 0, 0)),
        (
            b"cpus 1\ndump\n0fe 400\n2ff 800\nend\nram 100000 1\nmap 0 1000 100000 0\nstore 0 1000 7\nload 0 1000\nload 1 1000\nstore 0 1000 9\n",
            totals(5, 0, 7, 7),
        ),
        (
            b"cpus 1\ndump\n0fe 400\n2ff 800\nend\nram 100000 1\nupdate\n2ff 806",
            totals(2, 0, 0, 0),
        ),
    ] {
        let gate = AllBut::new(16);
        assert_eq!(rt; summary(&rt, script, &gate)?, wanted);
        let times = wanted.updates;
        assert!(rt; gate.asked_each(0..2, times) && gate.told_each(0..2, times));
        assert_eq!(rt; summary(&rt, script, &Shut)?, wanted);
    }
    Ok(())
}
