ghost use Rattle.std.specs.Prelude.{◌≡◌};
ghost use Rattle.urna_base.specs.Moment.{is_date, is_moment};

/// Whether `n` is a date YYYYMMDD: year 1000 to 9999, month 1 to 12, day 1 to 31.
#[tactic(auto, unfolding(crate::specs::Moment::is_date))]
pub fn date_ok(n: u64) -> bool
    ensures { result ≡ is_date n }
{
    let year = n / 10_000;
    let month = n / 100 % 100;
    let day = n % 100;
    1000 <= year && year <= 9999 && 1 <= month && month <= 12 && 1 <= day && day <= 31
}

/// Whether `n` is a moment YYYYMMDDHHMMSS: a date, then hour 0 to 23, minute and second 0 to 59.
#[tactic(auto, unfolding(crate::specs::Moment::is_moment))]
pub fn moment_ok(n: u64) -> bool
    ensures { result ≡ is_moment n }
{
    let hour = n / 10_000 % 100;
    let minute = n / 100 % 100;
    let second = n % 100;
    date_ok(n / 1_000_000) && hour <= 23 && minute <= 59 && second <= 59
}
