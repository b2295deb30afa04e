//! Pieces of texts, each behind what the text had.

use geo_exact::{Corner, LIMIT};
use ring_core::RingFault;
use std::test::Fail;
use text_pieces::{Piece, push_corner, push_number, push_parts, push_pieces, push_ring_fault};

#[test]
fn tells_numbers_and_corners(rt: HostRuntime) -> Result<(), Fail> {
    let mut text = Vec::from_slice(rt.alloc(), b"x")?;
    push_number(&mut text, -17i64)?;
    text.push(b',')?;
    push_number(&mut text, 0u64)?;
    text.push(b',')?;
    push_corner(&mut text, Corner { x: -LIMIT, y: 60 })?;
    assert_eq!(rt; text.as_slice(), b"x-17,0,-100000000000 60".as_slice());
    Ok(())
}

#[test]
fn tells_faults_of_rings(rt: HostRuntime) -> Result<(), Fail> {
    for (fault, want) in [
        (RingFault::ZeroArea, "ring G1"),
        (RingFault::EdgesMeet(1, 13), "ring G2 1 13"),
        (RingFault::Clockwise, "ring G3"),
    ] {
        let mut text = Vec::from_slice(rt.alloc(), b"ring ")?;
        push_ring_fault(&mut text, fault)?;
        assert_eq!(rt; text.as_slice(), want.as_bytes());
    }
    Ok(())
}

#[test]
fn tells_pieces(rt: HostRuntime) -> Result<(), Fail> {
    let corner = Corner { x: 5, y: -6 };
    let mut text = Vec::from_slice(rt.alloc(), b"at ")?;
    push_pieces(
        &mut text,
        &[
            Piece::Number(7),
            Piece::Text(":"),
            Piece::Corners(&[corner, corner]),
            Piece::Numbers(&[8, 9]),
            Piece::Text(" "),
            Piece::SignedArea(-10),
            Piece::EndOfLine,
        ],
    )?;
    assert_eq!(rt; text.as_slice(), b"at 7: 5 -6 5 -6 8 9 -10\n".as_slice());
    Ok(())
}

#[test]
fn tells_parts_of_pieces(rt: HostRuntime) -> Result<(), Fail> {
    let edge = [
        Piece::Corner(Corner { x: 0, y: 1 }),
        Piece::Text(" net "),
        Piece::Net(-2),
    ];
    let refused = [
        Piece::Text(" G "),
        Piece::Refused(RingFault::EdgesMeet(1, 13)),
    ];
    let area = [Piece::Text(" "), Piece::Area(12)];
    let mut text = Vec::new(rt.alloc());
    push_parts(&mut text, &[&edge, &refused, &[], &area])?;
    assert_eq!(rt; text.as_slice(), b"0 1 net -2 G G2 1 13 12".as_slice());
    Ok(())
}
