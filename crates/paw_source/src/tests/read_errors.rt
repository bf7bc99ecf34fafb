// Faults and lack of memory, each in its own way.

use paw_read_error::read_error::ReadError;
use std::alloc::AllocError;
use std::test::Fail;

// The first even number; where there is none, the fault is how many numbers there are.
fn first_even(numbers: &[u8]) -> Result<u8, ReadError<usize>> {
    for &n in numbers {
        if n % 2 == 0 {
            return Ok(n);
        }
    }
    Err(ReadError::Fault(numbers.len()))
}

#[test]
fn a_fault_is_no_want_of_memory(rt: HostRuntime) -> Result<(), Fail> {
    let memory = ReadError::from(AllocError);
    assert_eq!(rt; memory, ReadError::Memory);
    assert_eq!(rt; first_even(&[1, 4, 6]), Ok(4));
    assert_eq!(rt; first_even(&[1, 3]), Err(ReadError::Fault(2)));
    assert_eq!(rt; first_even(&[]), Err(ReadError::Fault(0)));
    assert!(rt; first_even(&[]) != Err(memory));
    Ok(())
}
