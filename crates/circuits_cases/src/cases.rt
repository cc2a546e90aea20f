// Circuits of small nets: their sums, and by which arcs they go.
use circuits::{Arc, ArcNet, Circuit, WeighedCircuit};
use std::test::Fail;

fn arc(from: u8, to: u8, gain: i64, cost: i64) -> Arc {
    Arc {
        from,
        to,
        gain,
        cost,
    }
}

// The net of some arcs between so many events.
fn net_of(events: u8, arcs: &[Arc]) -> Result<ArcNet, Fail> {
    let mut net = ArcNet::new(events).ok_or("events refused")?;
    for arc in arcs {
        net.push(*arc)?;
    }
    Ok(net)
}

// A circuit by the numbers of its arcs, with its sums.
fn weighed(gain: i64, cost: i64, arcs: &[u8]) -> Result<WeighedCircuit, Fail> {
    let mut places = [0; 32];
    places
        .get_mut(..arcs.len())
        .ok_or("too many arcs")?
        .copy_from_slice(arcs);
    let circuit = Circuit {
        arcs: places,
        len: arcs.len(),
    };
    Ok(WeighedCircuit {
        gain,
        cost,
        circuit,
    })
}

// The circuit of the largest ratio.
fn largest_of(net: &ArcNet) -> Result<WeighedCircuit, Fail> {
    Ok(net.extreme()?.ok_or("no circuit")?)
}

fn board_b() -> Result<ArcNet, Fail> {
    let arcs = [
        arc(0, 1, 1100, 0),
        arc(1, 2, 1000, 0),
        arc(2, 0, 1050, 1),
        arc(1, 0, 2300, 1),
    ];
    net_of(3, &arcs)
}

#[test]
fn extreme_of_board_b(rt: HostRuntime) -> Result<(), Fail> {
    assert_eq!(rt; largest_of(&board_b()?)?, weighed(3400, 1, &[0, 3])?);
    Ok(())
}

#[test]
fn potentials_of_board_b(rt: HostRuntime) -> Result<(), Fail> {
    let values = board_b()?.potentials(3400)?;
    assert_eq!(rt; &values[..3], [0, 1100, 2100].as_slice());
    Ok(())
}

#[test]
fn gaining_circuit_of_board_b(rt: HostRuntime) -> Result<(), Fail> {
    assert_eq!(rt;
        board_b()?.potentials(3399),
        Err(weighed(3400, 1, &[0, 3])?)
    );
    Ok(())
}

#[test]
fn what_stands_behind_the_numbers_does_not_count(rt: HostRuntime) -> Result<(), Fail> {
    let shown = largest_of(&board_b()?)?.circuit;
    let mut other = shown;
    other.arcs[2] = 7;
    assert_eq!(rt; other, shown);
    assert_eq!(rt; other.numbers(), [0, 3].as_slice());
    Ok(())
}

#[test]
fn self_loop_is_a_circuit(rt: HostRuntime) -> Result<(), Fail> {
    let net = net_of(2, &[arc(0, 1, 9, 1), arc(1, 1, -5, 2)])?;
    assert_eq!(rt; largest_of(&net)?, weighed(-5, 2, &[1])?);
    Ok(())
}

#[test]
fn arcs_in_a_row_have_no_circuit(rt: HostRuntime) -> Result<(), Fail> {
    let net = net_of(3, &[arc(0, 1, 9, 1), arc(1, 2, 9, 1)])?;
    assert_eq!(rt; net.extreme(), Ok(None));
    Ok(())
}

#[test]
fn circuit_that_gains_for_nothing(rt: HostRuntime) -> Result<(), Fail> {
    let net = net_of(2, &[arc(0, 0, 1, 1), arc(0, 1, 3, 0), arc(1, 0, -2, 0)])?;
    assert_eq!(rt; net.extreme(), Err(weighed(1, 0, &[1, 2])?));
    Ok(())
}

#[test]
fn equal_ratios_and_equal_arcs(rt: HostRuntime) -> Result<(), Fail> {
    let arcs = [
        arc(0, 1, 4, 1),
        arc(1, 0, 4, 1),
        arc(1, 0, 4, 1),
        arc(0, 0, 4, 1),
    ];
    let largest = largest_of(&net_of(2, &arcs)?)?;
    assert!(rt; [(4, 1), (8, 2)].contains(&(largest.gain, largest.cost)));
    Ok(())
}

#[test]
fn ring_of_32_events(rt: HostRuntime) -> Result<(), Fail> {
    let mut net = net_of(32, &[arc(31, 0, 2, 1)])?;
    let mut arcs = [0; 32];
    for event in 0..31 {
        net.push(arc(event, event + 1, 1, 0))?;
        arcs[usize::from(event) + 1] = event + 1;
    }
    assert_eq!(rt; largest_of(&net)?, weighed(33, 1, &arcs)?);
    Ok(())
}

#[test]
fn net_refuses_what_is_out_of_range(rt: HostRuntime) -> Result<(), Fail> {
    assert!(rt; ArcNet::new(0).is_none());
    assert!(rt; ArcNet::new(33).is_none());
    let mut net = net_of(2, &[])?;
    for refused in [
        arc(0, 2, 1, 1),
        arc(2, 0, 1, 1),
        arc(0, 1, 1_073_741_825, 1),
        arc(0, 1, -1_073_741_825, 1),
        arc(0, 1, 1, -1),
        arc(0, 1, 1, 8),
    ] {
        assert_eq!(rt; net.push(refused), Err(refused));
    }
    assert_eq!(rt; net.push(arc(0, 1, -1_073_741_824, 7)), Ok(()));
    Ok(())
}
