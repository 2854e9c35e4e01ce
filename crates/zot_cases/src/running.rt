//! The run of a program's cases.
use crate::answer::Answer;
use crate::case::Case;
use std::alloc::Global;
use std::io;
use std::process::ExitCode;

/// Makes the call of each case of standard input and prints a line for it: `NAME: ok`, or `NAME: wanted WANTED, came
/// CAME`. A line that is no case is wrong, and so is a case with the name of one before it. The last line is `N cases`.
/// What is wrong is said on standard error too, which the gate shows. The status is 0 where there are cases and none is
/// wrong.
pub fn run<R, F>(rt: &R, call: F) -> io::Result<ExitCode>
where
    R: Input + Print + Eprint + AllocGlobal,
    F: Fn(&Case, &mut Answer),
    requires { F.IsAlwaysCallable call }
{
    let text = io::read_to_string(rt.alloc(), rt.reader())?;
    let reports = reports_of(rt.alloc(), text.as_str(), call);
    rt.print(reports.all.as_str())?;
    rt.eprint(reports.wrong.as_str())?;
    Ok(if reports.wrong.as_str().is_empty() {
        ExitCode::SUCCESS
    } else {
        ExitCode::FAILURE
    })
}

// The reports of all cases, and those of what is wrong.
#[derive(Drop)]
struct Reports {
    all: Answer,
    wrong: Answer,
}

// The reports of the cases of a text.
fn reports_of<F>(alloc: Global, text: &str, call: F) -> Reports
where
    F: Fn(&Case, &mut Answer),
    requires { F.IsAlwaysCallable call }
{
    let mut all = Answer::new(alloc);
    let mut wrong = Answer::new(alloc);
    let mut names = Answer::new(alloc);
    let mut cases = 0u64;
    for line in text.split('\n') {
        if line.is_empty() || line.starts_with('#') {
            continue;
        }
        let case = Case::read(line);
        let mut answer = Answer::new(alloc);
        if is_new(&mut names, case.name) {
            call(&case, &mut answer);
        } else {
            answer.fail("a second case of this name");
        }
        let report = case.report(&answer);
        all.say(report.as_str());
        if report.is_wrong() {
            wrong.say(report.as_str());
        }
        cases = cases.saturating_add(1);
    }
    all.show(&cases);
    all.say(" cases\n");
    if all.is_wrong() || cases == 0 {
        wrong.say("no cases, or out of memory\n");
    }
    Reports { all, wrong }
}

// Whether no case before had this name, which is then one of the names.
fn is_new(names: &mut Answer, name: &str) -> bool {
    let mut line = Answer::new(names.alloc());
    line.say("\n");
    line.say(name);
    line.say("\n");
    let is_new = !names.as_str().contains(line.as_str());
    names.say(line.as_str());
    is_new
}
