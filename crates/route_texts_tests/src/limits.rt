//! Texts with 244 customers, and with one more.

use crate::outcomes::{Kind, reads_customers, refuses};
use std::alloc::Global;
use std::test::Fail;

/// A CVRP text with so many nodes.
fn cvrp(alloc: Global, count: u32) -> Result<String, Fail> {
    let mut points = String::new(alloc);
    let mut demands = String::new(alloc);
    for k in 1..=count {
        points.push_str(format!(in alloc; "{k} {k} -{k}\n")?.as_str())?;
        demands.push_str(format!(in alloc; "{k} 0\n")?.as_str())?;
    }
    let head = format!(in alloc;
        "TYPE:CVRP\nEDGE_WEIGHT_TYPE:EUC_2D\nDIMENSION:{count}\nCAPACITY:1\n"
    )?;
    let body = format!(in alloc;
        "NODE_COORD_SECTION\n{points}DEMAND_SECTION\n{demands}DEPOT_SECTION\n{count}\n-1\n"
    )?;
    let text = format!(in alloc; "{head}{body}")?;
    Ok(text)
}

/// A VRPTW text with so many nodes.
fn vrptw(alloc: Global, count: u32) -> Result<String, Fail> {
    let mut text = format!(in alloc; "1 1\n")?;
    for k in 1..=count {
        text.push_str(format!(in alloc; "{k} 0 0 0 0 0 0\n")?.as_str())?;
    }
    Ok(text)
}

#[test]
fn customers(rt: HostRuntime) -> Result<(), Fail> {
    let text = cvrp(rt.alloc(), 245)?;
    reads_customers(&rt, rt.alloc(), Kind::Cvrp, text.as_bytes(), 244)?;
    let text = cvrp(rt.alloc(), 246)?;
    refuses(
        &rt,
        rt.alloc(),
        Kind::Cvrp,
        text.as_bytes(),
        "3 47",
        "245 customers",
    )?;
    let text = cvrp(rt.alloc(), 2)?;
    reads_customers(&rt, rt.alloc(), Kind::Cvrp, text.as_bytes(), 1)?;
    let text = cvrp(rt.alloc(), 1)?;
    refuses(
        &rt,
        rt.alloc(),
        Kind::Cvrp,
        text.as_bytes(),
        "3 43",
        "no customer",
    )
}

#[test]
fn customers_with_times(rt: HostRuntime) -> Result<(), Fail> {
    let text = vrptw(rt.alloc(), 245)?;
    reads_customers(&rt, rt.alloc(), Kind::Vrptw, text.as_bytes(), 244)?;
    let text = vrptw(rt.alloc(), 246)?;
    refuses(
        &rt,
        rt.alloc(),
        Kind::Vrptw,
        text.as_bytes(),
        "247 47",
        "245 customers",
    )?;
    let mut text = vrptw(rt.alloc(), 245)?;
    text.push_str("x\n1 1\n")?;
    refuses(
        &rt,
        rt.alloc(),
        Kind::Vrptw,
        text.as_bytes(),
        "248 47",
        "a short row too many",
    )
}
