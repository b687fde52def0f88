use crate::line::{FITTING, Line};
use crate::trouble::Trouble;
use fault::Fault;
use script::{DecoderName, Fit};
use std::alloc::Global;

/// A decoder that a fittings file asks for, and in which line, from 1.
#[derive(Clone, Copy)]
pub struct Wanted {
    pub line: usize,
    pub fit: Fit,
}

/// A decoder that was fitted: its name, and as what it was fitted.
#[derive(Clone, Copy)]
pub struct Fitted {
    pub name: DecoderName,
    pub fit: Fit,
}

impl Wanted {
    /// The decoder that it became, where it could be fitted.
    pub(crate) fn fitted(self, answer: Result<usize, Fault>) -> Result<Fitted, Trouble> {
        let Wanted { line, fit } = self;
        let number = answer.map_err(|fault| Trouble::Unfitted { line, fault })?;
        let kind = fit.kind();
        Ok(Fitted {
            name: DecoderName { kind, number },
            fit,
        })
    }
}

/// Reads the text of a fittings file: a script of `fit` lines alone.
pub(crate) fn read_fittings(heap: Global, text: &str) -> Result<Vec<Wanted>, Trouble> {
    (1..)
        .zip(text.lines())
        .filter_map(|(line, text)| match Line::read(heap, line, text).transpose()? {
            Ok(Line::Fit(fit)) => Some(Ok(Wanted { line, fit })),
            Ok(_) | Err(Trouble::BadLine { .. }) => {
                let expected = FITTING;
                Some(Err(Trouble::BadLine { line, expected }))
            }
            Err(trouble) => Some(Err(trouble)),
        })
        .try_collect(heap)
}
