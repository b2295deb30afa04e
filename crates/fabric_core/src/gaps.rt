//! Net numbers of edges that rings and their city do not have alike: gaps and overlaps.

ghost use Rattle.std.specs.Prelude.{◌+◌, ◌⊎◌, IfOk, IfErr, OnOk, ◌∷◌, []};
ghost use Rattle.geo_exact.specs.declared.corner.Corner.{Corner};
ghost use Rattle.edge_chains.specs.Counts.{AreNetOf};
ghost use Rattle.fabric_core.specs.own.Lists.{corners_of_rings, AreFewCorners};
ghost use Rattle.fabric_core.specs.Faults.{IsOutOfMemory};
ghost use Rattle.fabric_core.specs.own.Checks.{HaveEqualNets, IsToldOfNets};

use crate::all_faults::{AllFaults, Asked, LoadRefusal};
use crate::layer::LoadFault;
use edge_chains::EdgeSum;
use geo_exact::Corner;
use ring_core::Ring;
use std::alloc::{AllocError, Allocator};

/// The net numbers of the rings, less those of the city's.
pub(crate) fn net_numbers<A: Allocator + Copy>(
    alloc: A,
    rings: &[Ring<A>],
    refined: &[Corner],
) -> Result<EdgeSum<A>, AllocError>
    requires { AreFewCorners (corners_of_rings rings.now) refined.now }
    ensures { IfOk result (λ sum. AreNetOf sum (corners_of_rings rings.now) (refined.now ∷ [])) }
{
    let mut sum = EdgeSum::new(alloc);
    for ring in rings {
        sum.add(ring.corners.as_slice())?;
    }
    sum.take(refined)?;
    Ok(sum)
}

/// Refuses rings that do not have each edge as often as the city, with the least such edge and how
/// much oftener they have it, and with all such edges where they are asked for.
pub(crate) fn check_nets<A: Allocator + Copy>(
    alloc: A,
    rings: &[Ring<A>],
    refined: &[Corner],
    asked: Asked,
) -> Result<(), LoadRefusal<A>>
    requires { AreFewCorners (corners_of_rings rings.now) refined.now }
    ensures ok { OnOk result (HaveEqualNets (corners_of_rings rings.now) refined.now) }
    ensures err { IfErr result (λ refusal. IsToldOfNets asked (corners_of_rings rings.now) refined.now refusal
        ⊎ IsOutOfMemory refusal) }
{
    let sum = net_numbers(alloc, rings, refined)?;
    let Some((a, b, net)) = sum.first_unbalanced() else {
        return Ok(());
    };
    let first = LoadFault::Gap(a, b, net);
    match asked {
        Asked::First => Err(LoadRefusal::from(first)),
        Asked::All => {
            let gaps = sum.unbalanced(alloc)?;
            Err(LoadRefusal {
                first,
                all: Some(AllFaults::Gaps(gaps)),
            })
        }
    }
}
