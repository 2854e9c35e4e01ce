//! Configurations.
use zot_cases::Answer;
use zot_config::{Config, ConfigError, read_config};

/// What a configuration says, as `ok ROOT DEDUPE DELAY MEMBERS KEY ROUNDS`, or its first wrong field and the text found.
pub fn config(answer: &mut Answer, given: &str) {
    let bytes = answer.bytes_of(given);
    match read_config(answer.alloc(), bytes.as_slice()) {
        Ok(config) => says(answer, &config),
        Err(ConfigError::Field { field, found }) => {
            answer.write(field.as_str().as_bytes());
            answer.say(": ");
            answer.write(found.as_str().as_bytes());
        }
        Err(ConfigError::NoMemory) => answer.fail("out of memory"),
    }
}

// What a configuration says.
fn says(answer: &mut Answer, config: &Config) {
    answer.say("ok ");
    answer.say(config.root());
    answer.say(" ");
    answer.tell(&config.dedupe());
    answer.say(" ");
    answer.tell(&config.delay());
    let mut between = " ";
    for member in config.members() {
        answer.say(between);
        answer.say(member.as_str());
        between = ",";
    }
    answer.say(" ");
    answer.write(config.key().as_slice());
    answer.say(" ");
    answer.tell(&config.rounds());
}
