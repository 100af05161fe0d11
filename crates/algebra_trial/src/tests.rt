// The solver at 1, 2 and 17 points, with equal points, and with too little memory; the polynomial through given values.
use algebra::*;
use field::*;

// Points number 0, 1, 2, .. are the elements of the codes start, start + 1, ..
fn number<F: Field>(points: &mut [F::Elem], start: u16) {
    let mut code = start;
    for p in points.iter_mut() {
        *p = F::element(code);
        code = code.wrapping_add(1);
    }
}

// Whether the polynomial is 1 at point i and 0 at the others.
fn row_stands<F: Field>(row: &[F::Elem], points: &[F::Elem], i: usize) -> bool {
    points.iter().enumerate().all(|(j, p)| {
        let expected = if i == j { F::one() } else { F::zero() };
        F::equal(value::<F>(row, *p), expected)
    })
}

// Solves, and compares every value.
fn solver_stands<F: Field>(points: &[F::Elem], cells: &mut [F::Elem]) -> Result<bool, Unsolved> {
    let m = points.len();
    let mut grid = Grid::over(m, m, cells);
    solve::<F>(points, &mut grid)?;
    // By number: so a grid gives its rows.
    for i in 0..m {
        let Some(row) = grid.row(i) else {
            return Ok(false);
        };
        if !row_stands::<F>(row, points, i) {
            return Ok(false);
        }
    }
    Ok(true)
}

// The same with consecutive codes for points, in as much memory as is asked for of what is lent.
fn trial<F: Field>(
    m: usize,
    start: u16,
    room: usize,
    memory: &mut [F::Elem],
) -> Result<bool, Unsolved> {
    if m > 17 || room > 289 || memory.len() < 306 {
        return Ok(false);
    }
    let (points, cells) = memory.split_at_mut(17);
    let points = &mut points[0..m];
    number::<F>(points, start);
    solver_stands::<F>(points, &mut cells[0..room])
}

// Whether the polynomial has the values at the points.
fn has_values<F: Field>(f: &[F::Elem], points: &[F::Elem], values: &[F::Elem]) -> bool {
    points
        .iter()
        .zip(values)
        .all(|(p, y)| F::equal(value::<F>(f, *p), *y))
}

// The polynomial through values has them, and value_through agrees with it at a further point.
fn through_stands<F: Field>(
    points: &[F::Elem],
    values: &[F::Elem],
    f: &mut [F::Elem],
    scratch: &mut [F::Elem],
) -> Result<bool, Unsolved> {
    interpolate::<F>(points, values, f, scratch)?;
    let x = F::element(1000);
    let further = value_through::<F>(points, values, x, scratch)?;
    Ok(has_values::<F>(f, points, values) && F::equal(value::<F>(f, x), further))
}

// The same with consecutive codes for points and values, in lent memory.
fn through_trial<F: Field>(
    m: usize,
    points: &mut [F::Elem],
    values: &mut [F::Elem],
    f: &mut [F::Elem],
    scratch: &mut [F::Elem],
) -> Result<bool, Unsolved> {
    number::<F>(points, 1);
    number::<F>(values, 900);
    if m > points.len() || m > values.len() || m > f.len() {
        return Ok(false);
    }
    through_stands::<F>(&points[0..m], &values[0..m], &mut f[0..m], scratch)
}

#[test]
fn nibbles(rt: HostRuntime) {
    let mut memory = [<Nibbles as Field>::zero(); 306];
    assert_eq!(rt; trial::<Nibbles>(1, 3, 1, &mut memory), Ok(true));
    assert_eq!(rt; trial::<Nibbles>(2, 0, 5, &mut memory), Ok(true));
    assert_eq!(rt;
        trial::<Nibbles>(16, 0, 256, &mut memory),
        Ok(true),
        "every element is a point"
    );
    assert_eq!(rt;
        trial::<Nibbles>(17, 0, 289, &mut memory),
        Err(Unsolved::Repeated),
        "16 is read as 0"
    );
    assert_eq!(rt; trial::<Nibbles>(2, 0, 3, &mut memory), Err(Unsolved::Room));
}

#[test]
fn pairs_of_bytes(rt: HostRuntime) {
    let mut memory = [Pair::<Bytes>::zero(); 306];
    assert_eq!(rt; trial::<Pair<Bytes>>(1, 77, 1, &mut memory), Ok(true));
    assert_eq!(rt; trial::<Pair<Bytes>>(2, 255, 4, &mut memory), Ok(true));
    assert_eq!(rt;
        trial::<Pair<Bytes>>(17, 250, 289, &mut memory),
        Ok(true),
        "points of both halves"
    );
}

#[test]
fn equal_points(rt: HostRuntime) {
    let twin = Pair::<Bytes>::element(500);
    let points = [twin, Pair::<Bytes>::one(), twin];
    let mut cells = [Pair::<Bytes>::zero(); 9];
    assert_eq!(rt;
        solver_stands::<Pair<Bytes>>(&points, &mut cells),
        Err(Unsolved::Repeated),
        "not side by side"
    );
}

#[test]
fn values_of_nibbles(rt: HostRuntime) {
    let mut points = [<Nibbles as Field>::zero(); 2];
    let mut values = [<Nibbles as Field>::zero(); 2];
    let mut f = [<Nibbles as Field>::zero(); 2];
    let mut scratch = [<Nibbles as Field>::zero(); 2];
    assert_eq!(rt;
        through_trial::<Nibbles>(1, &mut points, &mut values, &mut f, &mut scratch),
        Ok(true)
    );
    assert_eq!(rt;
        through_trial::<Nibbles>(2, &mut points, &mut values, &mut f, &mut scratch),
        Ok(true)
    );
    let alone = [<Nibbles as Field>::one(); 1];
    assert_eq!(rt;
        through_stands::<Nibbles>(&points, &alone, &mut f, &mut scratch),
        Err(Unsolved::Values)
    );
}

#[test]
fn values_of_pairs(rt: HostRuntime) {
    let mut points = [Pair::<Bytes>::zero(); 17];
    let mut values = [Pair::<Bytes>::zero(); 17];
    let mut f = [Pair::<Bytes>::zero(); 17];
    let mut scratch = [Pair::<Bytes>::zero(); 17];
    let mut small = [Pair::<Bytes>::zero(); 16];
    assert_eq!(rt;
        through_trial::<Pair<Bytes>>(17, &mut points, &mut values, &mut f, &mut scratch),
        Ok(true)
    );
    assert_eq!(rt;
        through_trial::<Pair<Bytes>>(17, &mut points, &mut values, &mut f, &mut small),
        Err(Unsolved::Room)
    );
}
