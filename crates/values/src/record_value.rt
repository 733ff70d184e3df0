// The figures of each value, field by field behind the kind, and back. Each figure has a line of its
// own, the quarters' too, so that a list reads as the record's format does.
ghost use Rattle.std.specs.Prelude.{◌≡◌, length, List, ℤ};
ghost use Rattle.layout.specs.Layout.{fields_of};
ghost use Rattle.layout.specs.Packing.{filled};
ghost use Rattle.layout.specs.declared.kind.Kind.{Kind};
ghost use Rattle.layout.specs.declared.kind.Kind.TheVariants as k;
ghost use Rattle.values.specs.Bounds.{Bounded};
ghost use Rattle.values.specs.FigureLaws.{bid_back, bid_kept, corridor_back, corridor_kept, header_back, header_kept, line_back, line_kept, prices_back, prices_kept, total_back, total_kept, volumes_back, volumes_kept, withdrawal_back, withdrawal_kept, zone_back, zone_kept};
ghost use Rattle.values.specs.Values.{Four, bid_figures, bid_of, corridor_figures, corridor_of, header_figures, header_of, line_figures, line_of, prices_figures, prices_of, total_figures, total_of, volumes_figures, volumes_of, withdrawal_figures, withdrawal_of, zone_figures, zone_of};

use crate::figure::{filled, fitted, named, quarters};
use crate::value::{
    BidRecord, CorridorRecord, HeaderRecord, LineRecord, PricesRecord, TotalRecord, VolumesRecord,
    WithdrawalRecord, ZoneRecord,
};
use layout::field::Figures;
use names::numbered::Numbered;

/// A value with a figure for each field of its kind.
pub(crate) trait RecordValue: Copy {
    // A kind of such values; where two kinds have them, both have these bounds.
    ghost kind: { Kind };

    ghost figures_of: { Self → List ℤ };

    ghost value_of: { List ℤ → Self };

    ghost Shaped: { Self → Type 0 };

    fn figures(&self) -> Figures
        ensures value { result ≡ filled (figures_of self.now) }
        ensures shape { Shaped self.now };

    fn from_figures(figures: &Figures) -> Self
        requires { Bounded (fields_of kind) 0 figures.now }
        ensures { result ≡ value_of figures.now };

    // A value is the one that has its figures.
    ghost back: { (x : Self) → Shaped x → value_of (figures_of x) ≡ x };

    // Figures in their bounds are those of the value that has them.
    ghost kept: { (xs : List ℤ) → Bounded (fields_of kind) 0 xs → length xs ≡ length (fields_of kind) → figures_of (value_of xs) ≡ xs };
}

impl RecordValue for ZoneRecord {
    ghost kind = { k.Zone };

    ghost figures_of = { zone_figures };

    ghost value_of = { zone_of };

    ghost Shaped = { λ x. Four x.needs };

    ghost back = { zone_back };

    ghost kept = { zone_kept };

    fn figures(&self) -> Figures {
        filled([
            self.zone.into(),
            self.day_ahead_price.into(),
            self.needs[0].into(),
            self.needs[1].into(),
            self.needs[2].into(),
            self.needs[3].into(),
        ])
    }

    fn from_figures(figures: &Figures) -> ZoneRecord {
        ZoneRecord {
            zone: fitted(figures[0]),
            day_ahead_price: fitted(figures[1]),
            needs: quarters(figures, 2),
        }
    }
}

impl RecordValue for BidRecord {
    // Ordinary and whole bids have the same bounds.
    ghost kind = { k.Ordinary };

    ghost figures_of = { bid_figures };

    ghost value_of = { bid_of };

    ghost Shaped = { λ x. Four x.quantities };

    ghost back = { bid_back };

    ghost kept = { bid_kept };

    fn figures(&self) -> Figures {
        filled([
            self.number.into(),
            self.zone.into(),
            self.direction.number().into(),
            self.half_euros.into(),
            self.station_group.into(),
            self.quantities[0].into(),
            self.quantities[1].into(),
            self.quantities[2].into(),
            self.quantities[3].into(),
        ])
    }

    fn from_figures(figures: &Figures) -> BidRecord {
        BidRecord {
            number: fitted(figures[0]),
            zone: fitted(figures[1]),
            direction: named(figures[2]),
            half_euros: fitted(figures[3]),
            station_group: fitted(figures[4]),
            quantities: quarters(figures, 5),
        }
    }
}

impl RecordValue for CorridorRecord {
    ghost kind = { k.Corridor };

    ghost figures_of = { corridor_figures };

    ghost value_of = { corridor_of };

    ghost Shaped = { λ x. (Four x.forward) × (Four x.backward) };

    ghost back = { corridor_back };

    ghost kept = { corridor_kept };

    fn figures(&self) -> Figures {
        filled([
            self.number.into(),
            self.from_zone.into(),
            self.to_zone.into(),
            self.forward[0].into(),
            self.forward[1].into(),
            self.forward[2].into(),
            self.forward[3].into(),
            self.backward[0].into(),
            self.backward[1].into(),
            self.backward[2].into(),
            self.backward[3].into(),
        ])
    }

    fn from_figures(figures: &Figures) -> CorridorRecord {
        CorridorRecord {
            number: fitted(figures[0]),
            from_zone: fitted(figures[1]),
            to_zone: fitted(figures[2]),
            forward: quarters(figures, 3),
            backward: quarters(figures, 7),
        }
    }
}

impl RecordValue for WithdrawalRecord {
    ghost kind = { k.Withdrawal };

    ghost figures_of = { withdrawal_figures };

    ghost value_of = { withdrawal_of };

    ghost Shaped = { λ _. Unit {0} };

    ghost back = { withdrawal_back };

    ghost kept = { withdrawal_kept };

    fn figures(&self) -> Figures {
        filled([self.list.number().into(), self.number.into()])
    }

    fn from_figures(figures: &Figures) -> WithdrawalRecord {
        WithdrawalRecord {
            list: named(figures[0]),
            number: fitted(figures[1]),
        }
    }
}

impl RecordValue for PricesRecord {
    ghost kind = { k.Prices };

    ghost figures_of = { prices_figures };

    ghost value_of = { prices_of };

    ghost Shaped = { λ x. Four x.prices };

    ghost back = { prices_back };

    ghost kept = { prices_kept };

    fn figures(&self) -> Figures {
        filled([
            self.zone.into(),
            self.prices[0].into(),
            self.prices[1].into(),
            self.prices[2].into(),
            self.prices[3].into(),
        ])
    }

    fn from_figures(figures: &Figures) -> PricesRecord {
        PricesRecord {
            zone: fitted(figures[0]),
            prices: quarters(figures, 1),
        }
    }
}

impl RecordValue for VolumesRecord {
    // Schedules and meter records have the same bounds.
    ghost kind = { k.Schedule };

    ghost figures_of = { volumes_figures };

    ghost value_of = { volumes_of };

    ghost Shaped = { λ x. Four x.megawatts };

    ghost back = { volumes_back };

    ghost kept = { volumes_kept };

    fn figures(&self) -> Figures {
        filled([
            self.list.number().into(),
            self.number.into(),
            self.megawatts[0].into(),
            self.megawatts[1].into(),
            self.megawatts[2].into(),
            self.megawatts[3].into(),
        ])
    }

    fn from_figures(figures: &Figures) -> VolumesRecord {
        VolumesRecord {
            list: named(figures[0]),
            number: fitted(figures[1]),
            megawatts: quarters(figures, 2),
        }
    }
}

impl RecordValue for LineRecord {
    ghost kind = { k.Line };

    ghost figures_of = { line_figures };

    ghost value_of = { line_of };

    ghost Shaped = { λ _. Unit {0} };

    ghost back = { line_back };

    ghost kept = { line_kept };

    fn figures(&self) -> Figures {
        filled([
            self.list.number().into(),
            self.number.into(),
            self.payment,
            self.deduction,
        ])
    }

    fn from_figures(figures: &Figures) -> LineRecord {
        LineRecord {
            list: named(figures[0]),
            number: fitted(figures[1]),
            payment: figures[2],
            deduction: figures[3],
        }
    }
}

impl RecordValue for TotalRecord {
    ghost kind = { k.Total };

    ghost figures_of = { total_figures };

    ghost value_of = { total_of };

    ghost Shaped = { λ _. Unit {0} };

    ghost back = { total_back };

    ghost kept = { total_kept };

    fn figures(&self) -> Figures {
        filled([self.which.number().into(), self.value])
    }

    fn from_figures(figures: &Figures) -> TotalRecord {
        TotalRecord {
            which: named(figures[0]),
            value: figures[1],
        }
    }
}

impl RecordValue for HeaderRecord {
    ghost kind = { k.Header };

    ghost figures_of = { header_figures };

    ghost value_of = { header_of };

    ghost Shaped = { λ _. Unit {0} };

    ghost back = { header_back };

    ghost kept = { header_kept };

    fn figures(&self) -> Figures {
        filled([
            self.hour.into(),
            self.rate.into(),
            self.market_records.into(),
            self.proposal_records.into(),
            self.meter_records.into(),
        ])
    }

    fn from_figures(figures: &Figures) -> HeaderRecord {
        HeaderRecord {
            hour: fitted(figures[0]),
            rate: fitted(figures[1]),
            market_records: fitted(figures[2]),
            proposal_records: fitted(figures[3]),
            meter_records: fitted(figures[4]),
        }
    }
}
