use crate::setup::{cut, held, planned, roller, same, shown, store, window};
use log4rs_rolling::{AnyRoller, DeleteRoller, Roll};
use std::alloc::Global;
use std::test::Fail;

/// Rolls `f`. Returns the outcome, the files, and the number of refused operations.
fn rolled(alloc: Global, roller: &mut AnyRoller, told: &str, plan: &str) -> Result<String, Fail> {
    let mut store = store(alloc, told, planned(alloc, plan)?.as_slice())?;
    let answer = roller.roll("f", &mut store);
    let files = held(alloc, &store)?;
    Ok(format!(in alloc; "{}{files} {}", shown(&answer), store.refusals())?)
}

/// Each archive moves to the next higher index, and the file to the lowest.
const WHOLE: &str = "f.{}|0|2|copy|f=new f.0=A f.1=B||ok f.0=new f.1=A 0
f.{}|0|3|copy|f=new f.0=A f.1=B||ok f.0=new f.1=A f.2=B 0
f.{}|0|1|copy|f=new f.0=A f.1=B||ok f.0=new f.1=B 0
f.{}|7|2|copy|f=new f.0=A f.1=B||ok f.0=A f.1=B f.7=new 0
f.{}|4294967294|1|copy|f=new||ok f.4294967294=new 0";

/// The index replaces each `{}`, and variables are expanded.
const INDICES: &str = "$ENV{NAME}{}.{}|9|2|copy|f=new f9.9=A||ok f10.10=A f9.9=new 0";

/// Both archives have the same name.
const SAME: &str = "$ENV{A{}}|0|2|rename|f=new same=A||ok same=new 0";

/// No archive is kept.
const NOTHING: &str = "f.{}|0|0|copy|f=new f.0=A f.1=B||ok f.0=A f.1=B 0
f.{}|0|0|copy|f.0=A||store f.0=A 1
f.{}|0|0|copy|f=new f.0=A f.1=B|x|store f=new f.0=A f.1=B 1";

/// Missing files are skipped.
const GAPS: &str = "f.{}|0|3|copy|f.1=B||ok f.2=B 0
f.{}|0|3|rename|f=new f.2=C||ok f.0=new f.2=C 0
f.{}|0|3|rename|||ok 0";

/// If a rename is refused, the file is copied and removed.
const COPIES: &str = "f.{}|0|2|copy|f=new f.0=A f.1=B|x|ok f.0=new f.1=A 1
f.{}|0|2|copy|f=new f.0=A f.1=B|.x|ok f.0=new f.1=A 1
f.{}|0|2|copy|f=new f.0=A f.1=B|xx|store f=new f.0=A f.1=B 2
f.{}|0|2|copy|f=new f.0=A f.1=B|x.x|store f=new f.0=A f.1=A 2
f.{}|0|2|copy|f=new f.1=B|x|store f=new f.1=B 2";

/// Only renames are allowed.
const RENAMES: &str = "f.{}|0|2|rename|f=new f.0=A f.1=B|x|store f=new f.0=A f.1=B 1
f.{}|0|2|rename|f=new f.0=A f.1=B|.x|store f=new f.1=A 1";

/// The folder of the newest archive is made first, then the folder of each move's target.
const FOLDERS: &str = "d/{}/f|3|2|rename|f=new d/3/f=A||ok d/3/f=new d/4/f=A 0
d/{}/f|3|2|rename|f=new d/3/f=A|x|store d/3/f=A f=new 1
d/{}/f|3|2|rename|f=new d/3/f=A|.x|store d/3/f=A f=new 1
d/{}/f|3|2|rename|f=new d/3/f=A|...x|store d/4/f=A f=new 1
d/f.{}|0|2|rename|f=new d/f.0=A|..x|store d/f.1=A f=new 1";

/// The file is removed.
const REMOVALS: &str = "delete|0|0||f=new f.0=A f.1=B||ok f.0=A f.1=B 0
delete|0|0||f.0=A||store f.0=A 1
delete|0|0||f=new f.0=A f.1=B|x|store f=new f.0=A f.1=B 1";

/// Lines of a window, `copy` or `rename`, files, the plan, and the expected outcome, files and
/// number of refused operations.
const TABLES: [&str; 9] = [
    WHOLE, INDICES, SAME, NOTHING, GAPS, COPIES, RENAMES, FOLDERS, REMOVALS,
];

/// Rolls the file of a line. Returns the outcome, and what the line expects.
fn came(alloc: Global, line: &str) -> Result<(String, &str), Fail> {
    let (mut window, rest) = window(line);
    let (mode, rest) = cut(rest);
    let (told, rest) = cut(rest);
    let (plan, expected) = cut(rest);
    window.3 = mode == "rename";
    let mut roller = match window.0 {
        "delete" => AnyRoller::Delete(DeleteRoller::new()),
        _ => AnyRoller::FixedWindow(roller(alloc, window)?),
    };
    Ok((rolled(alloc, &mut roller, told, plan)?, expected))
}

#[test]
fn windows_and_removals(rt: HostRuntime) -> Result<(), Fail> {
    for table in TABLES {
        for line in table.lines() {
            let (came, expected) = came(rt.alloc(), line)?;
            same(&rt, came.as_str(), expected);
        }
    }
    Ok(())
}
