//! Geometries that are accepted, and some that are refused.

use super::{Shape, geometry_of, same};
use cache_core::{Geometry, GeometryFault};

#[test]
fn refuses_by_the_first_broken_rule(rt: HostRuntime) {
    static REFUSED: [(Shape, GeometryFault); 10] = [
        ((24, 4, 1), GeometryFault::SizeNotPower),
        ((0, 4, 1), GeometryFault::SizeNotPower),
        ((2, 4, 1), GeometryFault::SizeRange),
        ((33_554_432, 4, 1), GeometryFault::SizeRange),
        ((16, 3, 1), GeometryFault::BlockNotPower),
        ((16, 2, 1), GeometryFault::BlockRange),
        ((16, 32, 1), GeometryFault::BlockRange),
        ((16, 4, 3), GeometryFault::AssocNotPower),
        ((16, 4, 0), GeometryFault::AssocNotPower),
        ((16, 4, 8), GeometryFault::AssocTooLarge),
    ];
    for (shape, want) in &REFUSED {
        let fault = Geometry::new(shape.0, shape.1, shape.2).err();
        same(&rt, &fault, &Some(*want), "the fault", shape.0);
    }
}

/// How many sets and blocks a geometry has, and the size of a block.
fn numbers(geometry: &Geometry) -> (u64, u64, u64) {
    (geometry.sets(), geometry.blocks(), geometry.bsize())
}

/// The first byte of the block that holds an address.
fn first_byte(geometry: &Geometry, addr: u64) -> u64 {
    geometry.first_byte(geometry.block(addr))
}

#[test]
fn a_geometry_tells_its_numbers(rt: HostRuntime) {
    let one_set = geometry_of(&rt, (16_777_216, 4_096, 4_096));
    assert!(rt; numbers(&one_set) == (1, 4_096, 4_096));
    let geometry = geometry_of(&rt, (16, 4, 2));
    assert!(rt; numbers(&geometry) == (2, 4, 4));
    assert!(rt; geometry.block(15) == 3 && geometry.set(3) == 1);
    assert!(rt; first_byte(&geometry, u64::MAX) == u64::MAX - 3);
}
