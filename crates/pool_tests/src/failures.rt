use crate::trials::a_pool;
use calls::failure::Failure;
use calls::fault::Fault;
use runner::run::run;
use std::test::Fail;
use store::refusal::Refusal;

// A refusal stays one, with its fault told anew. Where there is no memory there is nothing to tell.
#[test]
fn told_by_number(rt: HostRuntime) -> Result<(), Fail> {
    let failures = [
        (Failure::Refused(Fault::VotesMissing), Failure::Refused(10)),
        (
            Failure::Refused(Fault::Store(Refusal::ChainFull)),
            Failure::Refused(7),
        ),
        (Failure::NoMemory, Failure::NoMemory),
    ];
    for (failure, by_number) in failures {
        assert_eq!(rt; failure.map(|fault: Fault| fault.number()), by_number);
    }
    Ok(())
}

// This pool is open already, so a list of calls on it is refused with 12, which a caller tells by its number.
#[test]
fn told_of_a_run(rt: HostRuntime) -> Result<(), Fail> {
    let mut pool = a_pool(rt.alloc())?;
    let stopped = run(rt.alloc(), &mut pool, 2, &[]).err();
    let told = stopped.map(|failure| failure.map(|fault| fault.number()));
    assert_eq!(rt; told, Some(Failure::Refused(12)));
    Ok(())
}

// The closure has to take only the fault that is there: 4 here, and not 0. Where there is no memory it is not called.
#[test]
fn told_by_a_share(rt: HostRuntime) -> Result<(), Fail> {
    let four: Failure<u8> = Failure::Refused(4);
    let told = four.map(|parts| 8 / parts);
    prove!(told == Failure::Refused(2));
    assert_eq!(rt; told, Failure::Refused(2));
    let none: Failure<u8> = Failure::NoMemory;
    let told = none.map(|parts| 8 / parts);
    prove!(told == Failure::NoMemory);
    assert_eq!(rt; told, Failure::NoMemory);
    Ok(())
}

// A fault that cannot be copied, and a closure that can be called only once.
#[test]
fn told_once(rt: HostRuntime) -> Result<(), Fail> {
    let parts = vec![in rt.alloc(); 1u8, 2]?;
    let whole = vec![in rt.alloc(); 3u8]?;
    let failure = Failure::Refused(parts);
    let told = failure.map(|parts: Vec<u8>| (parts.len(), whole));
    let Failure::Refused((len, whole)) = told else {
        panic!(rt; "a refusal");
    };
    assert_eq!(rt; (len, whole.len()), (2, 1));
    Ok(())
}
