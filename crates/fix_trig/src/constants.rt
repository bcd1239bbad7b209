//! The constants of the turns.

/// The cosine and the sine of an angle by which directions are turned, times 2^62.
#[derive(Clone, Copy)]
pub(crate) struct Turn {
    pub(crate) cosine: u64,
    pub(crate) sine: u64,
}

/// The turns by a quarter turn over 2, 4, 8 and so on. As many serve as a number has fraction bits.
/// Printed by tools/fix_trig_tables.py.
pub(crate) const TURNS: [Turn; 40] = [
    Turn {
        cosine: 3260954456333195553,
        sine: 3260954456333195553,
    },
    Turn {
        cosine: 4260642322793532497,
        sine: 1764815834521887442,
    },
    Turn {
        cosine: 4523073764714963029,
        sine: 899695310372275547,
    },
    Turn {
        cosine: 4589479489746651963,
        sine: 452024275624069880,
    },
    Turn {
        cosine: 4606131040650197959,
        sine: 226284707652502141,
    },
    Turn {
        cosine: 4610297064819661174,
        sine: 113176440454146016,
    },
    Turn {
        cosine: 4611338766951757486,
        sine: 56592481536850979,
    },
    Turn {
        cosine: 4611599204741358746,
        sine: 28296773447188932,
    },
    Turn {
        cosine: 4611664314954810277,
        sine: 14148453308909940,
    },
    Turn {
        cosine: 4611680592556051597,
        sine: 7074234977634093,
    },
    Turn {
        cosine: 4611684661959354333,
        sine: 3537118529214896,
    },
    Turn {
        cosine: 4611685679310367042,
        sine: 1768559394657194,
    },
    Turn {
        cosine: 4611685933648131909,
        sine: 884279713584816,
    },
    Turn {
        cosine: 4611685997232573856,
        sine: 442139858824435,
    },
    Turn {
        cosine: 4611686013128684388,
        sine: 221069929666221,
    },
    Turn {
        cosine: 4611686017102712024,
        sine: 110534964864861,
    },
    Turn {
        cosine: 4611686018096218933,
        sine: 55267482436399,
    },
    Turn {
        cosine: 4611686018344595661,
        sine: 27633741218696,
    },
    Turn {
        cosine: 4611686018406689843,
        sine: 13816870609410,
    },
    Turn {
        cosine: 4611686018422213388,
        sine: 6908435304713,
    },
    Turn {
        cosine: 4611686018426094274,
        sine: 3454217652357,
    },
    Turn {
        cosine: 4611686018427064496,
        sine: 1727108826179,
    },
    Turn {
        cosine: 4611686018427307051,
        sine: 863554413090,
    },
    Turn {
        cosine: 4611686018427367690,
        sine: 431777206545,
    },
    Turn {
        cosine: 4611686018427382850,
        sine: 215888603273,
    },
    Turn {
        cosine: 4611686018427386640,
        sine: 107944301637,
    },
    Turn {
        cosine: 4611686018427387587,
        sine: 53972150819,
    },
    Turn {
        cosine: 4611686018427387824,
        sine: 26986075410,
    },
    Turn {
        cosine: 4611686018427387883,
        sine: 13493037705,
    },
    Turn {
        cosine: 4611686018427387898,
        sine: 6746518853,
    },
    Turn {
        cosine: 4611686018427387902,
        sine: 3373259427,
    },
    Turn {
        cosine: 4611686018427387903,
        sine: 1686629714,
    },
    Turn {
        cosine: 4611686018427387903,
        sine: 843314857,
    },
    Turn {
        cosine: 4611686018427387903,
        sine: 421657429,
    },
    Turn {
        cosine: 4611686018427387903,
        sine: 210828715,
    },
    Turn {
        cosine: 4611686018427387903,
        sine: 105414358,
    },
    Turn {
        cosine: 4611686018427387903,
        sine: 52707179,
    },
    Turn {
        cosine: 4611686018427387903,
        sine: 26353590,
    },
    Turn {
        cosine: 4611686018427387903,
        sine: 13176795,
    },
    Turn {
        cosine: 4611686018427387903,
        sine: 6588398,
    },
];
