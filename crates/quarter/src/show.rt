// A report as a table that is read at a glance.
use crate::input::Group;
use crate::report::Report;
use allocation::{Share, Split};
use std::fmt;

// The correction factor RCF = (T - R) / T, to four places.
#[derive(Clone, Copy)]
struct Factor(Split);

impl fmt::Display for Factor {
    fn fmt<W: fmt::Write>(&self, f: &mut fmt::Formatter<W>) -> fmt::Result {
        let total = i128::from(self.0.total());
        if total == 0 {
            return write!(f, "none, since there are no weights");
        }
        let above = total - i128::from(self.0.residual());
        let scaled = (above.abs() * 10_000 + total / 2) / total;
        let sign = if above < 0 { "-" } else { "" };
        write!(
            f,
            "{above} / {total} = {sign}{}.{:04}",
            scaled / 10_000,
            scaled % 10_000
        )
    }
}

// One direction of one group.
fn write_share<W: fmt::Write>(
    f: &mut fmt::Formatter<W>,
    group: Group,
    share: &Share,
) -> fmt::Result {
    writeln!(
        f,
        "{:>5} {:>8} {:>5}  {}  {:>15} {:>13} {:>13}",
        group.brp,
        group.supplier,
        group.class,
        share.direction,
        share.weight,
        share.correction,
        share.volume
    )
}

// All volumes of the line; no line is long enough to saturate it.
fn all_volumes(line: &[Share]) -> i128 {
    line.iter().fold(0, |sum: i128, share| {
        sum.saturating_add(i128::from(share.volume))
    })
}

impl fmt::Display for Report {
    fn fmt<W: fmt::Write>(&self, f: &mut fmt::Formatter<W>) -> fmt::Result {
        writeln!(
            f,
            "One quarter-hour in Wh; into the area is positive, out of it negative."
        )?;
        writeln!(
            f,
            "weight: what the profile gave; allocated: what the group got."
        )?;
        writeln!(f, "")?;
        writeln!(
            f,
            "  BRP supplier class  direction        weight    correction     allocated"
        )?;
        write_line(f, self)?;
        writeln!(f, "")?;
        write_totals(f, self)
    }
}

// Two shares to a row.
fn write_line<W: fmt::Write>(f: &mut fmt::Formatter<W>, report: &Report) -> fmt::Result {
    for (row, shares) in report.rows.iter().zip(report.line.chunks(2)) {
        for share in shares {
            write_share(f, row.group, share)?;
        }
    }
    Ok(())
}

// The quarter's figures and its closing.
fn write_totals<W: fmt::Write>(f: &mut fmt::Formatter<W>, report: &Report) -> fmt::Result {
    let posted = report.postings.nets();
    let split = report.allocated.split;
    let allocated = all_volumes(report.line.as_slice());
    let left = allocated
        .saturating_add(i128::from(posted.exchange))
        .saturating_add(i128::from(posted.measured))
        .saturating_add(i128::from(posted.losses));
    writeln!(f, "X    exchange            {:>14}", posted.exchange)?;
    writeln!(f, "M    measured            {:>14}", posted.measured)?;
    writeln!(f, "L    losses              {:>14}", posted.losses)?;
    writeln!(f, "T    weights             {:>14}", split.total())?;
    writeln!(f, "V    weights, net        {:>14}", report.allocated.net)?;
    writeln!(f, "R    residual            {:>14}", split.residual())?;
    writeln!(f, "RCF  correction factor   {}", Factor(split))?;
    writeln!(f, "closing: X + M + L + allocated ({allocated}) = {left}")
}
