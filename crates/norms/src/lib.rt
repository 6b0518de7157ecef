// The norms of the twelve kinds: appendix 3, for total, cold and hot water.
#![tactic(auto)]

ghost use Rattle.std.specs.Prelude.{◌≡◌, ◌≤◌};
ghost use Rattle.norms.specs.Norms.{norm_of};

// Each table has a row of the twelve kinds for each service. They are static, since the back end writes a constant table out anew wherever it is
// named.

// Litres per resident on the greatest day.
static DAY: [[u64; 12]; 3] = [
    // total
    [400, 100, 160, 120, 230, 200, 250, 300, 115, 15, 16, 20],
    // cold
    [270, 40, 70, 50, 90, 100, 100, 120, 40, 9, 9, 12],
    // hot
    [130, 60, 90, 70, 140, 100, 150, 180, 75, 6, 7, 8],
];

// Tenths of a litre per resident in the greatest hour.
static HOUR: [[u64; 12]; 3] = [
    // total
    [200, 104, 120, 125, 190, 224, 280, 300, 84, 26, 40, 27],
    // cold
    [91, 41, 45, 43, 70, 120, 130, 140, 30, 14, 20, 15],
    // hot
    [109, 63, 75, 82, 120, 104, 150, 160, 54, 12, 20, 12],
];

// Hundredths of a litre a second of a fixture.
static FIXTURE: [[u64; 12]; 2] = [
    // total
    [30, 20, 20, 30, 20, 30, 30, 30, 20, 20, 14, 14],
    // either line
    [20, 14, 14, 20, 14, 20, 20, 20, 14, 14, 10, 10],
];

// Litres an hour of a fixture.
static HOURLY: [[u64; 12]; 2] = [
    // total
    [300, 100, 100, 300, 115, 250, 280, 300, 100, 80, 80, 100],
    // either line
    [200, 60, 60, 200, 80, 180, 190, 200, 60, 60, 60, 60],
];

/// D, Q, Z and O of a kind.
#[derive(Clone, Copy, Debug, PartialEq, Eq)]
pub struct Norm {
    pub day: u64,
    pub hour: u64,
    pub fixture: u64,
    pub hourly: u64,
}

/// The norms of a kind, 1 to 12, for a service.
// Numbers and no enums: they are the places of columns and rows in the tables.
pub fn norm_of(service: u8, kind: usize) -> Norm
    requires { (1 ≤ kind) × (kind ≤ 12) }
    ensures { result ≡ norm_of service kind }
{
    let c = kind - 1;
    let of_resident = usize::from(service).min(2);
    let of_fixture = usize::from(service).min(1);
    Norm {
        day: DAY[of_resident][c],
        hour: HOUR[of_resident][c],
        fixture: FIXTURE[of_fixture][c],
        hourly: HOURLY[of_fixture][c],
    }
}
