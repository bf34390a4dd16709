//! Whether a choice has a value for each site, and which is the first that is out of range.
ghost use Rattle.std.specs.Prelude.{◌≡◌, ◌≤◌, length};
ghost use Rattle.sk_holes.specs.Range.{first_out, Tests};

use crate::fault::FillFault;
use sk_model::{Choice, Expanded, Site};

/// The place of the first site whose value is not below its size.
fn first_out(sites: &[Site], values: &[u64]) -> Option<u32>
    requires length { length values.now ≡ length sites.now }
    requires few { length sites.now ≤ 4294967296 }
    ensures { result ≡ first_out 0 sites.now values.now }
{
    for (i, site) in sites.iter().enumerate() {
        if values[i] >= site.size {
            return Some(i as u32);
        }
    }
    None
}

/// Tests whether a choice is in range.
#[tactic(auto, using(crate::proofs::RangeLaws::fits_where_none_is_out))]
pub fn test_range(expanded: &Expanded, choice: &Choice) -> Result<(), FillFault>
    requires { length expanded.now.sites ≤ 4294967296 }
    ensures { Tests result expanded.now choice.now }
{
    let sites = expanded.sites.as_slice();
    let values = choice.values.as_slice();
    if values.len() != sites.len() {
        return Err(FillFault::WrongLength);
    }
    match first_out(sites, values) {
        Some(site) => Err(FillFault::OutOfRange { site }),
        None => Ok(()),
    }
}
