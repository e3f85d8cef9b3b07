//! The script that is tried, and what it must answer.
use std::alloc::{AllocError, Global};

/// A command, its answer, and the dump of the graph that it leaves.
#[derive(Clone, Copy)]
pub struct Step {
    pub command: &'static str,
    pub answer: &'static str,
    pub dump: &'static str,
}

const TWO: &str = "<x:a> <x:p> <x:b> .\n<x:a> <x:p> <x:c> .\nok dump 2\n";

const THREE: &str = "<x:a> <x:p> <x:b> .\n<x:a> <x:p> <x:c> .\n<x:z> <x:q> <x:b> .\nok dump 3\n";

const SHAPE: &str =
    "one\t2\t<x:b>\t<x:c>\ntwo\t1\t<x:a> <x:b>\t<x:a> <x:c>\ntwo\t1\t<x:p> <x:b>\t<x:p> <x:c>\ntwo\t2\t<x:a> <x:p>\nok shape\n";

/// One script, in which two triples come and go together with a third one, and a block is refused.
pub const STEPS: [Step; 10] = [
    Step {
        command: "INSERT\n<x:a> <x:p> <x:b> .\n<x:a> <x:p> <x:c> .\nGO\n",
        answer: "ok new 2 now 2\n",
        dump: TWO,
    },
    Step {
        command: "SHAPE\n",
        answer: SHAPE,
        dump: TWO,
    },
    Step {
        command: "STATS\n",
        answer: "triples 2\nterms 4\ntwo 3\none 1\nok stats\n",
        dump: TWO,
    },
    Step {
        command: "INSERT\n<x:a> <x:p> <x:c> .\n<x:z> <x:q> <x:b> .\nGO\n",
        answer: "ok new 1 now 3\n",
        dump: THREE,
    },
    Step {
        command: "INSERT\n<x:a> <x:p> <x:b> .\nGO\n",
        answer: "ok new 0 now 3\n",
        dump: THREE,
    },
    Step {
        command: "DELETE\n<x:z> <x:q> <x:b> .\nGO\n",
        answer: "ok gone 1 now 2\n",
        dump: TWO,
    },
    Step {
        command: "SHAPE\n",
        answer: SHAPE,
        dump: TWO,
    },
    Step {
        command: "INSERT\n<x:a> <x:p> <x:b> .\n<x:a> <x:p> <x:c> .\nGO\n",
        answer: "ok new 0 now 2\n",
        dump: TWO,
    },
    Step {
        command: "QUERY\nSELECT ?s { ?s ?p ?o }\nGO\n",
        answer: "?s\n<x:a>\n<x:a>\nok rows 2\n",
        dump: TWO,
    },
    Step {
        command: "INSERT\n<x:a> .\nGO\n",
        answer: "refused 3 line 1\n",
        dump: TWO,
    },
];

/// What DUMP says of the empty graph.
pub const NO_DUMP: &str = "ok dump 0\n";

/// The script of all steps.
pub fn script_of_steps(alloc: Global) -> Result<Vec<u8>, AllocError> {
    let mut script = Vec::new(alloc);
    for step in STEPS {
        script.extend_from_slice(step.command.as_bytes())?;
    }
    Ok(script)
}

/// What is answered of the steps that end within so many bytes, and the dump of the graph that they leave.
pub fn closed_within(alloc: Global, taken: usize) -> Result<(Vec<u8>, &'static str), AllocError> {
    let mut answers = Vec::new(alloc);
    let mut dump = NO_DUMP;
    let mut left = taken;
    for step in STEPS {
        if left < step.command.len() {
            break;
        }
        left -= step.command.len();
        answers.extend_from_slice(step.answer.as_bytes())?;
        dump = step.dump;
    }
    Ok((answers, dump))
}

/// Where the script is cut off behind the first number of bytes or before, down to the row above: how many of its steps
/// are whole, and the refusal of what is left.
pub const CUTS: [(usize, usize, &str); 8] = [
    (0, 0, ""),
    (5, 0, "refused 1 command\n"),
    (48, 0, "refused 10 unended\n"),
    (50, 1, ""),
    (54, 1, "refused 1 command\n"),
    (56, 2, ""),
    (60, 2, "refused 1 command\n"),
    (62, 3, ""),
];
