use sk_cnf::Encoded;

/// Why a certificate is rejected: the first of its parts that does not hold.
#[derive(Debug, Drop)]
pub enum Reason {
    /// It has not as many values as the sketch has sites, or one is not below its site's size.
    Values,
    /// An input is none of an obligation, or stands twice.
    Inputs,
    /// A refutation of an upper part does not hold, or there are not as many of these as obligations.
    Upper,
    /// The refutation of the lower part does not hold.
    Lower,
    /// Its text is not the layout of the filling.
    Text,
    /// A formula is not the one that was made for its query.
    Formula {
        /// The formula that was made.
        own: Encoded,
    },
}
