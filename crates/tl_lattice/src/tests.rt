//! The table of the two lattices, row by row.

use crate::{
    Cell, Corner, Kind, cell_width, class_of, is_dark, neighbours, ring, rise, steps_in, steps_out,
};

fn cell(r: u32, c: u32) -> Option<Cell> {
    Some(Cell { r, c })
}

fn corner(r: u32, x: u32) -> Option<Corner> {
    Some(Corner { r, x })
}

#[test]
fn a_cell_is_dark_where_row_and_column_are_even_together(rt: HostRuntime) {
    assert!(rt; is_dark(Cell { r: 0, c: 0 }));
    assert!(rt; !is_dark(Cell { r: 2, c: 1 }));
    assert!(rt; is_dark(Cell { r: 3, c: 1 }));
}

#[test]
fn neighbours_share_a_side(rt: HostRuntime) {
    let inner = neighbours(Kind::Square, Cell { r: 2, c: 3 });
    assert!(rt; inner.cells == [cell(2, 2), cell(2, 4), cell(1, 3), cell(3, 3)] && inner.len == 4);
    let first = neighbours(Kind::Square, Cell { r: 0, c: 0 });
    assert!(rt; first.cells == [None, cell(0, 1), None, cell(1, 0)] && first.len == 4);
    let up = neighbours(Kind::Triangle, Cell { r: 1, c: 1 });
    assert!(rt; up.cells == [cell(1, 0), cell(1, 2), cell(2, 1), None] && up.len == 3);
    let down = neighbours(Kind::Triangle, Cell { r: 1, c: 2 });
    assert!(rt; down.cells == [cell(1, 1), cell(1, 3), cell(0, 2), None] && down.len == 3);
}

#[test]
fn a_ring_goes_clockwise(rt: HostRuntime) {
    let four = ring(Kind::Square, Corner { r: 1, x: 1 });
    assert!(rt;
        four.cells[..4] == [cell(0, 0), cell(0, 1), cell(1, 1), cell(1, 0)] && four.len == 4
    );
    let six = ring(Kind::Triangle, Corner { r: 1, x: 2 });
    assert!(rt;
        six.cells
            == [
                cell(0, 0),
                cell(0, 1),
                cell(0, 2),
                cell(1, 2),
                cell(1, 1),
                cell(1, 0)
            ]
    );
    let edge = ring(Kind::Triangle, Corner { r: 0, x: 1 });
    assert!(rt; edge.cells == [None, None, None, cell(0, 1), cell(0, 0), None] && edge.len == 6);
}

#[test]
fn a_step_has_the_dark_cell_on_its_left(rt: HostRuntime) {
    let even = steps_out(Kind::Square, Corner { r: 1, x: 1 });
    assert!(rt; even.corners == [corner(0, 1), corner(2, 1), None] && even.len == 2);
    let odd = steps_out(Kind::Square, Corner { r: 1, x: 0 });
    assert!(rt; odd.corners == [None, corner(1, 1), None] && odd.len == 2);
    let three = steps_out(Kind::Triangle, Corner { r: 1, x: 2 });
    assert!(rt; three.corners == [corner(1, 4), corner(0, 1), corner(2, 1)] && three.len == 3);
    let top = steps_out(Kind::Triangle, Corner { r: 0, x: 1 });
    assert!(rt; top.corners == [corner(0, 3), None, corner(1, 0)] && top.len == 3);
}

#[test]
fn a_step_comes_from_the_corner_before(rt: HostRuntime) {
    let even = steps_in(Kind::Square, Corner { r: 1, x: 1 });
    assert!(rt; even.corners == [corner(1, 2), corner(1, 0), None] && even.len == 2);
    let odd = steps_in(Kind::Square, Corner { r: 0, x: 1 });
    assert!(rt; odd.corners == [None, corner(1, 1), None] && odd.len == 2);
    let three = steps_in(Kind::Triangle, Corner { r: 1, x: 2 });
    assert!(rt; three.corners == [corner(0, 3), corner(2, 3), corner(1, 0)] && three.len == 3);
    let top = steps_in(Kind::Triangle, Corner { r: 0, x: 1 });
    assert!(rt; top.corners == [None, corner(1, 2), None] && top.len == 3);
}

#[test]
fn classes_widths_and_rises(rt: HostRuntime) {
    assert_eq!(rt; class_of(Kind::Square, Corner { r: 2, x: 3 }), 1);
    assert_eq!(rt; class_of(Kind::Triangle, Corner { r: 2, x: 5 }), 2);
    assert_eq!(rt; cell_width(Kind::Square), 1);
    assert_eq!(rt; cell_width(Kind::Triangle), 2);
    assert_eq!(rt; rise(Kind::Square), 4);
    assert_eq!(rt; rise(Kind::Triangle), 3);
}
