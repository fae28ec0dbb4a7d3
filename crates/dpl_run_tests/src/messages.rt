// What the error types of the calls print, every variant of each.

use dpl_run::{ConfigFault, OutFault, Refused};
use dpl_syntax::{Code, Place, Refusal, Stop};
use std::test::Fail;

// Why numbers are no settings, in the order of `ConfigFault`.
const SETTINGS: &str = "\
there are not 1 to 64 locales
the budget is not from 1 to 4294967296
the tries are not from 1 to 4294967296
the extents of the grid of two dimensions do not multiply to the number of locales
the extents of the grid of three dimensions do not multiply to the number of locales";

#[test]
fn settings(rt: HostRuntime) -> Result<(), Fail> {
    let faults = [
        ConfigFault::Locales,
        ConfigFault::Budget,
        ConfigFault::Tries,
        ConfigFault::Grid2,
        ConfigFault::Grid3,
    ];
    for (fault, want) in faults.iter().zip(SETTINGS.lines()) {
        let told = format!(in rt.alloc(); "{fault}")?;
        assert_eq!(rt; told.as_str(), want);
    }
    Ok(())
}

#[test]
fn runs(rt: HostRuntime) -> Result<(), Fail> {
    let told = format!(in rt.alloc();
        "{}, {}, {}, {}, {OutFault}",
        Refused::Memory,
        Refused::Thread,
        Refused::Gate,
        Refused::Writer
    )?;
    assert_eq!(rt; told.as_str(), "M1, M2, G1, W1, the writer failed");
    Ok(())
}

#[test]
fn stops(rt: HostRuntime) -> Result<(), Fail> {
    let refusal = Refusal {
        code: Code::TooDeep,
        place: Some(Place { line: 3, column: 4 }),
    };
    let told = format!(in rt.alloc(); "{}, {}", Stop::Refused(refusal), Stop::Memory)?;
    assert_eq!(rt; told.as_str(), "! P2 at 3:4, out of memory");
    Ok(())
}
