// A grid of rows and columns over elements that the caller lends: row after row, cell (i, j) at i · cols + j.
// It is thin: what loops over cells is a function over slices, to which the grid's slice is handed on.
ghost use Rattle.std.specs.Prelude.{◌<◌, ◌≡◌, ◌+◌, ◌*◌, ◌^◌, ◌≤◌, true, false, length, if◌then◌else◌, MatchOption, nat_le, slice_index_or, slice_set};
ghost use Rattle.std.specs.List.{between};
ghost use Rattle.algebra.specs.Cells.{Inside, Whole};

#[derive(Drop)]
pub struct Grid<'a, E> {
    pub rows: usize,
    pub cols: usize,
    pub cells: &'a mut [E],
}

// Whether a grid fits into memory for so many elements.
pub fn fits(rows: usize, cols: usize, room: usize) -> bool
    ensures { (result ≡ true → rows * cols ≤ room) × (rows * cols ≤ room → result ≡ true) }
{
    rows.checked_mul(cols).is_some_and(|n| n <= room)
}

impl<'a, E: Copy> Grid<'a, E> {
    // The grid over the memory's first elements. Memory that is too short is refused: then the grid has no rows.
    pub fn over(rows: usize, cols: usize, cells: &'a mut [E]) -> Grid<'a, E>
        ensures rows { result.rows ≡ (if nat_le (rows * cols) (length cells.old) then rows else 0) }
        ensures cols { result.cols ≡ cols }
        ensures cells { result.cells.now ≡ cells.old }
        ensures lent { result.cells.ghost_name ≡ cells.entry.ghost_name }
    {
        let rows = if fits(rows, cols, cells.len()) {
            rows
        } else {
            0
        };
        Grid { rows, cols, cells }
    }

    // The element at (row, col), which outside of the grid or its memory there is none.
    pub fn get(&self, row: usize, col: usize) -> Option<E>
        ensures { MatchOption result
            (Inside self.now row col → ⊥)
            (λ v. Inside self.now row col
            × (v ≡ slice_index_or self.now.cells.now (row * self.now.cols + col) v)) }
    {
        let at = place(self.rows, self.cols, row, col)?;
        self.cells.get(at).copied()
    }

    // Writes the element at (row, col), and says whether there is such a cell; where there is none, nothing changes. The answer is
    // a plain yes or no, as that of a set's `insert`.
    pub fn put(&mut self, row: usize, col: usize, value: E) -> bool
        ensures cases { (result ≡ true → Inside self.old row col)
            × (Inside self.old row col → result ≡ true) }
        ensures after { self.new.cells.now ≡ (if result then slice_set self.old.cells.now (row * self.old.cols + col) value else self.old.cells.now) }
        ensures same { (self.new.rows ≡ self.old.rows) × (self.new.cols ≡ self.old.cols) }
        ensures lent { self.new.cells.ghost_name ≡ self.old.cells.ghost_name }
    {
        let Some(at) = place(self.rows, self.cols, row, col) else {
            return false;
        };
        if at < self.cells.len() {
            self.cells[at] = value;
            return true;
        }
        false
    }

    // Row number row as a slice.
    pub fn row(&self, row: usize) -> Option<&[E]>
        ensures { MatchOption result
            (Whole self.now row → ⊥)
            (λ s. Whole self.now row
            × (s.now ≡ between (row * self.now.cols) (row * self.now.cols + self.now.cols) self.now.cells.now)) }
    {
        if row >= self.rows {
            return None;
        }
        let start = row.checked_mul(self.cols)?;
        let end = start.checked_add(self.cols)?;
        self.cells.get(start..end)
    }
}

// Where cell (row, col) of a grid lies: none outside of it, or past the largest number.
fn place(rows: usize, cols: usize, row: usize, col: usize) -> Option<usize>
    ensures { MatchOption result ((row < rows) × (col < cols) → 2 ^ 64 ≤ row * cols + col) (λ n. (row < rows) × (col < cols) × (n ≡ row * cols + col)) }
{
    if row >= rows || col >= cols {
        return None;
    }
    row.checked_mul(cols)?.checked_add(col)
}
