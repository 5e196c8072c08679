// JSON that a message keeps as it is.
ghost use Rattle.std.specs.Prelude.{◌≡◌, IfOk};
ghost use Rattle.serde_json.specs.View.{view};

use serde_json::Value;
use std::alloc::AllocError;
use std::marker::Model;

/// A JSON value, which contracts see as the data that it is.
#[derive(Drop)]
pub struct Json {
    value: Value,
}

impl Model for Json {
    ghost use Rattle.serde_json.specs.Data.{Data};
    ghost use Rattle.serde_json.specs.View.{view as data_of};
    ghost use Rattle.cdp_messages.specs.JsonCode.{coded_data};

    ghost Value = { Data };

    ghost coded = { coded_data };

    ghost view = { λ j. data_of j.value };
}

impl Json {
    /// The value, kept as it is.
    pub fn new(value: Value) -> Json
        ensures { result ≡ view value }
    {
        Json { value }
    }

    /// A copy of the value.
    pub fn copied(value: &Value) -> Result<Json, AllocError>
        ensures { IfOk result (λ json. json ≡ view value.now) }
    {
        Ok(Json {
            value: value.clone()?,
        })
    }

    /// The value that is kept.
    pub fn as_value(&self) -> &Value
        ensures { view result.now ≡ self.now }
    {
        &self.value
    }
}
