use script::fault::{AtLine, Fault};
use script::run::answer_line;
use script::session::Session;
use std::alloc::{AllocError, Global};

// The first fault of a script, if it has one.
fn first_fault(alloc: Global, script: &str) -> Option<AtLine> {
    let mut session = Session::new();
    for (line, number) in script.lines().zip(1..u64::MAX) {
        if let Err(fault) = answer_line(&mut session, alloc, number, line) {
            return Some(fault);
        }
    }
    None
}

// Scripts, each with the line of its fault.
const SCRIPTS: [(&str, u64, Fault); 16] = [
    ("sip 1 2\nshut 1", 2, Fault::NoSuchCommand),
    ("# a comment\n\nRegister", 3, Fault::NoSuchCommand),
    ("register 1", 1, Fault::TooManyWords),
    ("make 0 1 1 2 3 4 5 6 7 8 9", 1, Fault::TooManyWords),
    ("read 00 00", 1, Fault::TooManyWords),
    ("make 0 1 1 2 3 4 5 6 7", 1, Fault::TooFewWords),
    ("sip 1", 1, Fault::TooFewWords),
    ("register\nstation", 2, Fault::NotThereYet),
    ("tag 1 2 x", 1, Fault::NotANumber),
    ("tag 1 2 +3", 1, Fault::NotANumber),
    ("tag 1 2 -3", 1, Fault::NotANumber),
    ("tag 1 2 18446744073709551616", 1, Fault::NotANumber),
    ("read 0", 1, Fault::NotHex),
    ("read 0g", 1, Fault::NotHex),
    ("look 0", 1, Fault::NotThereYet),
    ("round", 1, Fault::NotThereYet),
];

#[test]
fn a_fault_names_its_line(rt: HostRuntime) {
    for (script, line, fault) in SCRIPTS {
        assert_eq!(rt;
            first_fault(rt.alloc(), script),
            Some(AtLine { line, fault }),
            "{script}"
        );
    }
}

// A host, a scheme and a station over both, and a copy that is asked for and was never taken.
const NO_COPY: &str = "adjudicator 5 0 0 0 0 0 0 0 2 2 2 2 2 2 2 2
register
station
copylook 0";

#[test]
fn a_copy_never_taken_is_not_there(rt: HostRuntime) -> Result<(), AllocError> {
    let Some(fault) = first_fault(rt.alloc(), NO_COPY) else {
        assert!(rt; false);
        return Ok(());
    };
    let text = fault.to_string(rt.alloc())?;
    assert_eq!(rt; text.as_str(), "line 4: not there yet");
    Ok(())
}

// The answer to a line, as it is printed.
fn said(session: &mut Session, alloc: Global, line: &str) -> Result<String, AllocError> {
    match answer_line(session, alloc, 7, line) {
        Ok(Some(reply)) => reply.to_string(alloc),
        Ok(None) => Ok(String::new(alloc)),
        Err(fault) => fault.to_string(alloc),
    }
}

// Lines one after the other, with what is said to each: a fault changes nothing.
const TALK: [(&str, &str); 12] = [
    ("chain 5 0 0 0 0 0 0 0 2 2 2 2 2 2 2 2", "ok"),
    ("station", "line 7: not there yet"),
    ("claim 0", "line 7: not there yet"),
    ("outputs", "8"),
    ("tag 1 2 0", "no 20 record 0 0"),
    ("left", "line 7: not there yet"),
    ("register", "ok"),
    ("station", "ok"),
    ("station", "line 7: not there yet"),
    ("host-advance 1", "line 7: not there yet"),
    ("tag 1 2 0", "no 20 record 0 0"),
    ("height", "0"),
];

#[test]
fn a_fault_changes_nothing(rt: HostRuntime) -> Result<(), AllocError> {
    let mut session = Session::new();
    for (line, answer) in TALK {
        let text = said(&mut session, rt.alloc(), line)?;
        assert_eq!(rt; text.as_str(), answer, "{line}");
    }
    Ok(())
}
