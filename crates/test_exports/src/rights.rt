// The rights of a row.
ghost use Rattle.std.specs.Prelude.{◌≡◌, eqb};
ghost use Rattle.rows.specs.Codes.{may_hold, may_transfer, may_register, within as is_within};

use rows::Rights;

#[unsafe(no_mangle)]
pub extern "C" fn kernel_rights_empty(a: u32) -> bool
    ensures { result ≡ eqb a 0 }
{
    Rights(a).empty()
}

#[unsafe(no_mangle)]
pub extern "C" fn kernel_rights_within(a: u32, b: u32) -> bool
    ensures { result ≡ is_within a b }
{
    Rights(a).within(Rights(b))
}

#[unsafe(no_mangle)]
pub extern "C" fn kernel_rights_contain(a: u32, right: u32) -> bool
    ensures all { result ≡ is_within right a }
    ensures hold { right ≡ 1 → result ≡ may_hold a }
    ensures transfer { right ≡ 2 → result ≡ may_transfer a }
    ensures register { right ≡ 4 → result ≡ may_register a }
{
    Rights(a).contains(Rights(right))
}
