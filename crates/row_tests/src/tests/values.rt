ghost use Rattle.std.specs.Prelude.{◌≡◌};
ghost use Rattle.bottle_values.specs.declared.Value.TheVariants.{Number};

use bottle_values::{Text, Value, ValueFault};
use std::process::Abort;
use std::test::Fail;

// A caller shows both round trips from the clauses of the two functions.
#[test]
fn values_and_faults_are_printed(rt: HostRuntime) -> Result<(), Fail> {
    let least = format!(in rt.alloc(); "{}", Value::from(i64::MIN))?;
    assert_eq!(rt; least.as_str(), "-9223372036854775808");
    let seven = format!(in rt.alloc(); "{}", Value::from(7))?;
    assert_eq!(rt; seven.as_str(), "7");
    let overflow = format!(in rt.alloc(); "{}", ValueFault::Overflow)?;
    assert_eq!(rt; overflow.as_str(), "V1 Overflow");
    let mismatch = format!(in rt.alloc(); "{}", ValueFault::Mismatch)?;
    assert_eq!(rt; mismatch.as_str(), "V2 Mismatch");
    Ok(())
}

// One is neither taken from the other nor multiplied with it, nor before it.
