// How long the buffers of a call have to be.
ghost use Rattle.std.specs.Prelude.{◌≡◌, ◌+◌, ◌-◌, ◌*◌};
ghost use Rattle.ledger.specs.Lengths.{data_symbols, box_symbols, tray_cells};

use beehive::Numbers;

// The symbols of the data: what a load takes and a read answers.
pub fn data_symbols(numbers: &Numbers) -> usize
    ensures { result ≡ data_symbols numbers.now }
{
    numbers.data_rows() * numbers.width()
}

// The symbols of a box, which a show answers.
pub fn box_symbols(numbers: &Numbers) -> usize
    ensures { result ≡ box_symbols numbers.now }
{
    numbers.beta() * numbers.width()
}

// The cells of the tray: for each newcomer a row from each helper and from each other newcomer.
pub fn tray_cells(numbers: &Numbers) -> usize
    ensures { result ≡ tray_cells numbers.now }
{
    numbers.newcomers() * (numbers.helpers() + numbers.newcomers() - 1) * numbers.width()
}
